// Resolves a command: looks up its names, or finds why it is refused.
ghost use Rattle.std.specs.Prelude.{◌≡◌, [], None, Some, Ok, Err, is_some, not, if◌then◌else◌};
ghost use Rattle.session_commands.specs.declared.refusal.Refusal.TheVariants.{Taken, TooMany, AlreadyRegistered, NotRegistered};
ghost use Rattle.desk_terms.specs.declared.terms.Terms.TheVariants as terms;
ghost use Rattle.desk_terms.specs.declared.kind.Wanted.TheVariants as wanted;
ghost use Rattle.desk_model.specs.Market.{kind_at};
ghost use Rattle.session_model.specs.declared.place.Place.TheVariants as place;
ghost use Rattle.session_model.specs.declared.act.Act.TheVariants as act;
ghost use Rattle.session_model.specs.declared.act.Change.TheVariants as change;
ghost use Rattle.session_model.specs.declared.act.Growth.TheVariants as growth;
ghost use Rattle.session_model.specs.declared.act.How.TheVariants as how;
ghost use Rattle.session_model.specs.Place.{takes_found};
ghost use Rattle.session_model.specs.Standing.{object_named, is_full};
ghost use Rattle.session_model.specs.Resolve.{find, with_found, making, unless, unless_used, unless_kept, unless_late, unless_taken, closes, joins, rate_at, target_of, handle_kind, engaging, combining, watching, pairing, quote_input, curve, resolve};
ghost use Rattle.desk_model.specs.Market.{least_user};
ghost use Rattle.desk_model.specs.State.{least_source};
ghost use Rattle.desk_model.specs.Told.{is_registered};
ghost use Rattle.session_commands.specs.declared.refusal.Refusal.TheVariants.{Cycle};

use crate::Session;
use day_number::Day;
use desk_names::{NameId, ObjId};
use desk_terms::{HandleKind, PartList, Terms, Wanted};
use fixed_amount::Rate;
use session_commands::{ActionId, Command, Refusal};
use session_model::{Act, Change, Growth, How, MOST_LIVE, MOST_NUMBERS, Place};

impl Session {
    // Returns the command with its objects, or the first reason to refuse it.
    #[tactic(auto, unfolding(session_model::specs::Resolve::resolve))]
    #[inline(always)]
    pub(crate) fn resolve(&mut self, command: &Command) -> Result<Act, Refusal>
        ensures act { result ≡ resolve self.old command.now }
        ensures same { self.new ≡ self.old }
    {
        match command {
            Command::Quote(name, value) => self.quote(*name, *value),
            Command::Sum(name, first, second) => self.combining(*name, false, *first, *second),
            Command::Difference(name, first, second) => self.combining(
                *name, true, *first, *second,
            ),
            Command::Stock(name, quote) => self.stock(*name, *quote),
            Command::Handle(name, is_curve) => self.handle(*name, *is_curve),
            Command::Composite(name) => self.composite(*name),
            Command::Member(composite, member, weight) => self.member(*composite, *member, *weight),
            Command::Set(quote, value) => self.revalued(*quote, Some(*value)),
            Command::Unset(quote) => self.revalued(*quote, None),
            Command::Link(handle, target) => self.linked(*handle, *target),
            Command::Unlink(handle) => self.unlinked(*handle),
            Command::Engine(instrument, engine) => self.engaging(*instrument, *engine),
            Command::Today(day) => Ok(Act::Quiet(Change::Today(*day))),
            Command::Fixing(index, day, rate) => self.fixed(*index, *day, *rate),
            Command::Freeze(object) => self.frozen(*object),
            Command::Thaw(object) => self.thawed(*object),
            Command::Recalc(object) => self.recalced(*object),
            Command::Forward(object, is_on) => self.forwarded(*object, *is_on),
            Command::Defer => Ok(Act::Quiet(Change::Defer)),
            Command::Resume => Ok(Act::Quiet(Change::Resume)),
            Command::Drop(object) => self.dropped(*object),
            Command::Ask(object) => self.asked(*object),
            Command::Df(curve, day) => self.discounted(*curve, *day),
            Command::Watch(name, action) => self.watched(*name, *action),
            Command::Register(watcher, object) => self.registered(*watcher, *object),
            Command::Unregister(watcher, object) => self.unregistered(*watcher, *object),
        }
    }

    // Returns the live object of a name.
    pub(crate) fn named(&self, name: NameId) -> Option<ObjId>
        ensures { result ≡ object_named self.now name }
    {
        match self.of_name.get(name.place()) {
            Some(object) => *object,
            None => None,
        }
    }

    // Returns the object of a name, if it is of a kind that the place takes.
    #[tactic(auto, unfolding(session_model::specs::Resolve::find))]
    pub(crate) fn find(&self, place: Place, name: NameId) -> Result<ObjId, Refusal>
        ensures { result ≡ find place self.now name }
    {
        match self.named(name) {
            Some(object) if self.takes(place, object) => Ok(object),
            Some(_) => Err(Refusal::Kind(name)),
            None => Err(Refusal::Unknown(name)),
        }
    }

    // Returns whether the object is a quote. It looks at its terms once.
    pub(crate) fn is_quote(&self, object: ObjId) -> bool
        ensures { result ≡ takes_found place.Quote (kind_at self.now.state.market object) }
    {
        matches!(self.desk.terms(object), Some(Terms::Quote(_)))
    }

    // Returns whether the object has a price or is a curve. It looks at its terms once.
    pub(crate) fn is_priced(&self, object: ObjId) -> bool
        ensures { result ≡ takes_found place.Priced (kind_at self.now.state.market object) }
    {
        match self.desk.terms(object) {
            Some(
                Terms::Curve(_)
                | Terms::Implied { .. }
                | Terms::Stock { .. }
                | Terms::Composite(_)
                | Terms::Flows(..),
            ) => true,
            Some(
                Terms::Quote(_)
                | Terms::Derived { .. }
                | Terms::Handle { .. }
                | Terms::Index(..)
                | Terms::Engine { .. },
            )
            | None => false,
        }
    }

    // Returns whether the object is of a kind that the place takes.
    fn takes(&self, place: Place, object: ObjId) -> bool
        ensures { result ≡ takes_found place (kind_at self.now.state.market object) }
    {
        match self.desk.kind(object) {
            Some(kind) => place.takes(kind),
            None => false,
        }
    }

    /// Checks a new name.
    ///
    /// # Errors
    ///
    /// `Taken` where it is the name of a live object.
    pub fn free(&self, name: NameId) -> Result<(), Refusal>
        ensures { result ≡ (if is_some (object_named self.now name) then Err (Taken name) else Ok tt) }
    {
        match self.named(name) {
            Some(_) => Err(Refusal::Taken(name)),
            None => Ok(()),
        }
    }

    // Returns whether there is no room for one more object.
    #[tactic(auto, unfolding(session_model::specs::Standing::is_full))]
    fn is_full(&self) -> bool
        ensures { result ≡ is_full self.now.state.market }
    {
        self.live >= MOST_LIVE || self.desk.len() >= MOST_NUMBERS
    }

    /// Checks the room for a new object.
    ///
    /// # Errors
    ///
    /// `TooMany` where 4,096 objects are live or 65,536 numbers were given.
    pub fn room(&self) -> Result<(), Refusal>
        ensures { result ≡ (if is_full self.now.state.market then Err TooMany else Ok tt) }
    {
        if self.is_full() {
            Err(Refusal::TooMany)
        } else {
            Ok(())
        }
    }

    #[tactic(auto, unfolding(session_model::specs::Resolve::unless_taken, session_model::specs::Resolve::unless))]
    fn quote(&self, name: NameId, value: Option<Rate>) -> Result<Act, Refusal>
        ensures { result ≡ unless_taken self.now name (making self.now name (terms.Quote value)) }
    {
        self.free(name)?;
        self.room()?;
        Ok(Act::Make(name, Terms::Quote(value)))
    }

    #[tactic(auto, unfolding(session_model::specs::Resolve::unless_taken, session_model::specs::Resolve::with_found, session_model::specs::Resolve::unless))]
    fn combining(
        &self,
        name: NameId,
        minus: bool,
        first: NameId,
        second: NameId,
    ) -> Result<Act, Refusal>
        ensures { result ≡ unless_taken self.now name (combining self.now name minus first second) }
    {
        self.free(name)?;
        let first = self.find(Place::Input(Wanted::QuoteInput), first)?;
        let second = self.find(Place::Input(Wanted::QuoteInput), second)?;
        self.room()?;
        Ok(Act::Make(
            name,
            Terms::Derived {
                minus,
                first,
                second,
            },
        ))
    }

    #[tactic(auto, unfolding(session_model::specs::Resolve::unless_taken, session_model::specs::Resolve::with_found, session_model::specs::Resolve::unless))]
    fn stock(&self, name: NameId, quote: NameId) -> Result<Act, Refusal>
        ensures { result ≡ unless_taken self.now name
            (with_found (find quote_input self.now quote) (λ x. making self.now name (terms.Stock x))) }
    {
        self.free(name)?;
        let quote = self.find(Place::Input(Wanted::QuoteInput), quote)?;
        self.room()?;
        Ok(Act::Make(name, Terms::Stock { quote }))
    }

    #[tactic(auto, unfolding(session_model::specs::Resolve::unless_taken, session_model::specs::Resolve::unless))]
    fn composite(&self, name: NameId) -> Result<Act, Refusal>
        ensures { result ≡ unless_taken self.now name (making self.now name (terms.Composite [])) }
    {
        self.free(name)?;
        self.room()?;
        Ok(Act::Make(name, Terms::Composite(PartList::new(self.alloc))))
    }

    #[tactic(auto, unfolding(session_model::specs::Resolve::unless_taken, session_model::specs::Resolve::unless))]
    fn handle(&self, name: NameId, is_curve: bool) -> Result<Act, Refusal>
        ensures { result ≡ unless_taken self.now name (making self.now name (terms.Handle (handle_kind is_curve) None)) }
    {
        self.free(name)?;
        self.room()?;
        Ok(Act::Make(
            name,
            Terms::Handle {
                target_kind: handle_kind(is_curve),
                target: None,
            },
        ))
    }

    // Returns the kinds that a handle may be linked to.
    fn target_of(&self, handle: ObjId) -> Place
        ensures { result ≡ target_of self.now.state.market handle }
    {
        if self.takes(Place::Input(Wanted::CurveInput), handle) {
            Place::Input(Wanted::CurveTarget)
        } else {
            Place::Input(Wanted::QuoteTarget)
        }
    }

    #[tactic(auto, unfolding(session_model::specs::Resolve::with_found, session_model::specs::Resolve::unless))]
    fn linked(&mut self, handle: NameId, target: NameId) -> Result<Act, Refusal>
        ensures act { result ≡ with_found (find place.Handle self.old handle) (λ x.
            with_found (find (target_of self.old.state.market x) self.old target) (λ y.
            unless (closes self.old.state.market x y) Cycle (act.Quiet (change.Link x (Some y))))) }
        ensures same { self.new ≡ self.old }
    {
        let handle = self.find(Place::Handle, handle)?;
        let target = self.find(self.target_of(handle), target)?;
        if self.desk.reaches(target, handle) {
            return Err(Refusal::Cycle);
        }
        Ok(Act::Quiet(Change::Link(handle, Some(target))))
    }

    #[tactic(auto, unfolding(session_model::specs::Resolve::with_found))]
    fn unlinked(&self, handle: NameId) -> Result<Act, Refusal>
        ensures { result ≡ with_found (find place.Handle self.now handle) (λ x. Ok (act.Quiet (change.Link x None))) }
    {
        let handle = self.find(Place::Handle, handle)?;
        Ok(Act::Quiet(Change::Link(handle, None)))
    }

    #[tactic(auto, unfolding(session_model::specs::Resolve::with_found))]
    fn engaging(&self, instrument: NameId, engine: Option<NameId>) -> Result<Act, Refusal>
        ensures { result ≡ with_found (find place.Flows self.now instrument) (λ x. engaging self.now x engine) }
    {
        let instrument = self.find(Place::Flows, instrument)?;
        match engine {
            Some(engine) => {
                let engine = self.find(Place::Input(Wanted::Engine), engine)?;
                Ok(Act::Quiet(Change::Engine(instrument, Some(engine))))
            }
            None => Ok(Act::Quiet(Change::Engine(instrument, None))),
        }
    }

    #[tactic(auto, unfolding(session_model::specs::Resolve::with_found, session_model::specs::Resolve::unless_kept))]
    fn fixed(&self, index: NameId, day: Day, rate: Rate) -> Result<Act, Refusal>
        ensures { result ≡ with_found (find (place.Input wanted.Index) self.now index) (λ y.
            unless_kept (rate_at self.now.state.market y day) (act.Grow (growth.Fixing y day rate))) }
    {
        let index = self.find(Place::Input(Wanted::Index), index)?;
        match self.desk.fixing(index, day) {
            Some(kept) => Err(Refusal::FixingExists(kept)),
            None => Ok(Act::Grow(Growth::Fixing(index, day, rate))),
        }
    }

    #[tactic(auto, unfolding(session_model::specs::Resolve::with_found))]
    fn discounted(&self, name: NameId, day: Day) -> Result<Act, Refusal>
        ensures { result ≡ with_found (find curve self.now name) (λ x. Ok (act.Price name x (how.Df day))) }
    {
        let object = self.find(Place::Input(Wanted::CurveTarget), name)?;
        Ok(Act::Price(name, object, How::Df(day)))
    }

    #[tactic(auto, unfolding(session_model::specs::Resolve::with_found, session_model::specs::Resolve::unless))]
    fn member(&mut self, composite: NameId, member: NameId, weight: i64) -> Result<Act, Refusal>
        ensures act { result ≡ with_found (find place.Composite self.old composite) (λ x.
            with_found (find (place.Input wanted.Member) self.old member) (λ y.
            unless (joins weight self.old.state.market x y) Cycle (act.Grow (growth.Member x y weight)))) }
        ensures same { self.new ≡ self.old }
    {
        let composite = self.find(Place::Composite, composite)?;
        let member = self.find(Place::Input(Wanted::Member), member)?;
        if weight != 0 && self.desk.reaches(member, composite) {
            return Err(Refusal::Cycle);
        }
        Ok(Act::Grow(Growth::Member(composite, member, weight)))
    }

    #[tactic(auto, unfolding(session_model::specs::Resolve::with_found))]
    fn revalued(&self, quote: NameId, value: Option<Rate>) -> Result<Act, Refusal>
        ensures { result ≡ with_found (find place.Quote self.now quote) (λ x. Ok (act.Quiet (change.Set x value))) }
    {
        let quote = self.find(Place::Quote, quote)?;
        Ok(Act::Quiet(Change::Set(quote, value)))
    }

    #[tactic(auto, unfolding(session_model::specs::Resolve::with_found))]
    fn frozen(&self, name: NameId) -> Result<Act, Refusal>
        ensures { result ≡ with_found (find place.Priced self.now name) (λ x. Ok (act.Quiet (change.Freeze x))) }
    {
        let object = self.find(Place::Priced, name)?;
        Ok(Act::Quiet(Change::Freeze(object)))
    }

    #[tactic(auto, unfolding(session_model::specs::Resolve::with_found))]
    fn thawed(&self, name: NameId) -> Result<Act, Refusal>
        ensures { result ≡ with_found (find place.Priced self.now name) (λ x. Ok (act.Quiet (change.Thaw x))) }
    {
        let object = self.find(Place::Priced, name)?;
        Ok(Act::Quiet(Change::Thaw(object)))
    }

    #[tactic(auto, unfolding(session_model::specs::Resolve::with_found, session_model::specs::Resolve::unless_late))]
    fn recalced(&mut self, name: NameId) -> Result<Act, Refusal>
        ensures act { result ≡ with_found (find place.Priced self.old name) (λ x.
            unless_late (least_source self.old.state x) (act.Price name x how.Recalc)) }
        ensures same { self.new ≡ self.old }
    {
        let object = self.find(Place::Priced, name)?;
        match self.desk.late(object) {
            Some(source) => Err(Refusal::Deferred(source)),
            None => Ok(Act::Price(name, object, How::Recalc)),
        }
    }

    #[tactic(auto, unfolding(session_model::specs::Resolve::with_found))]
    fn forwarded(&self, name: NameId, is_on: bool) -> Result<Act, Refusal>
        ensures { result ≡ with_found (find place.Priced self.now name) (λ x. Ok (act.Quiet (change.Forward x is_on))) }
    {
        let object = self.find(Place::Priced, name)?;
        Ok(Act::Quiet(Change::Forward(object, is_on)))
    }

    #[tactic(auto, unfolding(session_model::specs::Resolve::with_found, session_model::specs::Resolve::unless_used))]
    fn dropped(&self, name: NameId) -> Result<Act, Refusal>
        ensures { result ≡ with_found (find place.Droppable self.now name) (λ x.
            unless_used (least_user self.now.state.market x) (act.Quiet (change.Drop x))) }
    {
        let object = self.find(Place::Droppable, name)?;
        match self.desk.user_of(object) {
            Some(user) => Err(Refusal::InUse(user)),
            None => Ok(Act::Quiet(Change::Drop(object))),
        }
    }

    #[tactic(auto, unfolding(session_model::specs::Resolve::unless_taken, session_model::specs::Resolve::unless))]
    fn watched(&self, name: NameId, action: ActionId) -> Result<Act, Refusal>
        ensures { result ≡ unless_taken self.now name (watching self.now name action) }
    {
        self.free(name)?;
        self.room()?;
        Ok(Act::Watch(name, action))
    }

    #[tactic(auto, unfolding(session_model::specs::Resolve::with_found, session_model::specs::Resolve::unless))]
    fn registered(&self, watcher: NameId, object: NameId) -> Result<Act, Refusal>
        ensures { result ≡ pairing self.now watcher object (λ x y.
            unless (is_registered self.now.state x y) AlreadyRegistered (act.Grow (growth.Register x y))) }
    {
        let watcher = self.find(Place::Watcher, watcher)?;
        let object = self.find(Place::Observable, object)?;
        if self.desk.is_registered(watcher, object) {
            return Err(Refusal::AlreadyRegistered);
        }
        Ok(Act::Grow(Growth::Register(watcher, object)))
    }

    #[tactic(auto, unfolding(session_model::specs::Resolve::with_found, session_model::specs::Resolve::unless))]
    fn unregistered(&self, watcher: NameId, object: NameId) -> Result<Act, Refusal>
        ensures { result ≡ pairing self.now watcher object (λ x y.
            unless (not (is_registered self.now.state x y)) NotRegistered (act.Quiet (change.Unregister x y))) }
    {
        let watcher = self.find(Place::Watcher, watcher)?;
        let object = self.find(Place::Observable, object)?;
        if !self.desk.is_registered(watcher, object) {
            return Err(Refusal::NotRegistered);
        }
        Ok(Act::Quiet(Change::Unregister(watcher, object)))
    }

    #[tactic(auto, unfolding(session_model::specs::Resolve::with_found))]
    fn asked(&self, name: NameId) -> Result<Act, Refusal>
        ensures { result ≡ with_found (find place.Priced self.now name) (λ x. Ok (act.Price name x how.Ask)) }
    {
        let object = self.find(Place::Priced, name)?;
        Ok(Act::Price(name, object, How::Ask))
    }
}

// Returns the kind of a handle.
fn handle_kind(is_curve: bool) -> HandleKind
    ensures { result ≡ handle_kind is_curve }
{
    if is_curve {
        HandleKind::Curve
    } else {
        HandleKind::Quote
    }
}
