// Laws of the definitions, each the clause of a function with nothing to do.
ghost use Rattle.why_model.specs.Laws.{AsksShowAlike, ListingsAreWhole, ListingsHaveNoBound, NeedsAreListed, ShownIsWorkedOut, TheProductsAddUp, TheSumIsThePrice};

/// Law: each object of an answer stands there once, and all that the price rests on stands there, and nothing else: the
/// objects beneath it by edges, but for those that lie beneath frozen or late ones alone. How long paths may be does not
/// matter, once it is above the number of objects.
pub fn listing_law()
    ensures whole { ListingsAreWhole }
    ensures bound { ListingsHaveNoBound }
{}

/// Law: a priced object of an answer that is neither frozen nor late shows its price over what is shown of the objects that
/// it needs, and these stand in the answer too.
pub fn workings_law()
    ensures worked { ShownIsWorkedOut }
    ensures needs { NeedsAreListed }
{}

/// Law: an ask leaves what every object shows, with its mark and with what makes it late, so that an answer is of the session
/// as it stood, whatever is computed for it.
pub fn asking_law()
    ensures { AsksShowAlike }
{}

/// Law: the price of a bond, swap or forward rate agreement is the exact sum of its products, rounded once, and the products
/// of a composite add up to its value, where they show one and are neither frozen nor late; those of flows that are not
/// expired.
pub fn sums_law()
    ensures the_sum_is_the_price { TheSumIsThePrice }
    ensures the_products_add_up { TheProductsAddUp }
{}
