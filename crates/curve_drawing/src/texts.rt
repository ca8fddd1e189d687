// The pieces of text of a picture.

// What a picture begins with, up to what is drawn.
pub(crate) const HEAD: &[u8] =
    b"<svg xmlns='http://www.w3.org/2000/svg' width='800' height='520' viewBox='0 0 800 520' font-family='sans-serif' font-size='12'>\n<rect width='800' height='520' fill='white'/>\n<text x='70' y='32' font-size='18'>";

// What is drawn, up to the day of the market.
pub(crate) const FACTORS_ON: &[u8] = b"Discount factors on ";

pub(crate) const ZEROS_ON: &[u8] = b"Simple zero rates on ";

pub(crate) const FORWARDS_ON: &[u8] = b"Simple forward rates over three months on ";

pub(crate) const PARS_ON: &[u8] = b"Par rates of the helpers on ";

// Behind the day of the market, up to the day from which days or years count.
pub(crate) const DAYS_FROM: &[u8] =
    b"</text>\n<text x='420' y='436' text-anchor='middle'>days from ";

pub(crate) const YEARS_FROM: &[u8] =
    b"</text>\n<text x='420' y='436' text-anchor='middle'>years of 365.25 days from ";

// A line upwards through the plot, and the text below it.
pub(crate) const UPWARDS: &[u8] = b"<path d='M";

pub(crate) const BELOW: &[u8] = b" 50V400' stroke='#dddddd'/>\n<text x='";

pub(crate) const CENTRED: &[u8] = b"' y='418' text-anchor='middle'>";

// A line to the right through the plot, and the text to the left of it.
pub(crate) const RIGHTWARDS: &[u8] = b"<path d='M70 ";

pub(crate) const BESIDE: &[u8] = b"H770' stroke='#dddddd'/>\n<text x='64' y='";

pub(crate) const FLUSH: &[u8] = b"' dy='4' text-anchor='end'>";

// What a text ends with.
pub(crate) const TEXT_END: &[u8] = b"</text>\n";

// The frame of the plot.
pub(crate) const FRAME: &[u8] =
    b"<rect x='70' y='50' width='700' height='350' fill='none' stroke='#666666'/>\n";

// A group in one colour, from its beginning to its end.
pub(crate) const GROUP: &[u8] = b"<g stroke='";

pub(crate) const FILLED: &[u8] = b"' fill='";

pub(crate) const OPENED: &[u8] = b"'>\n";

pub(crate) const GROUP_END: &[u8] = b"</g>\n";

// A line through points.
pub(crate) const LINE: &[u8] = b"<polyline fill='none' stroke-width='2' points='";

pub(crate) const LINE_END: &[u8] = b"'/>\n";

// A disk with a title.
pub(crate) const DISK: &[u8] = b"<circle cx='";

pub(crate) const DISK_DOWN: &[u8] = b"' cy='";

pub(crate) const TITLE: &[u8] = b"' r='3'><title>";

pub(crate) const SMALL_TITLE: &[u8] = b"' r='1.5'><title>";

pub(crate) const DISK_END: &[u8] = b"</title></circle>\n";

// A short line and a name behind it.
pub(crate) const ENTRY: &[u8] = b"<path stroke-width='2' d='M";

pub(crate) const ENTRY_NAME: &[u8] = b"h24'/>\n<text stroke='none' fill='black' dy='4' x='";

pub(crate) const ENTRY_DOWN: &[u8] = b"' y='";

pub(crate) const CONTENT: &[u8] = b"'>";

// What a picture ends with.
pub(crate) const FOOTER: &[u8] = b"</svg>\n";
