// The short text of each refusal: the words of include/pinarewhemi.h.
use refusal::Refusal;
use std::rt::Stderr;
use terminal::errors::say;

// The short text.
pub(crate) fn text_of(why: Refusal) -> &'static str {
    match why {
        Refusal::Rule => "threshold or weight above 1000",
        Refusal::Length => "not 1 to 8 rings of 4 to 32 corners each, 32 in all",
        Refusal::Slanted => "an edge changes both coordinates",
        Refusal::Unturned =>
            "an edge changes neither coordinate, or two neighbours change the same one",
        Refusal::Empty => "nothing is inside",
        Refusal::Table => "the cost table has fewer entries than there are pieces",
        Refusal::List => "the shot list holds fewer than 4 numbers a shot",
        Refusal::Ends => "the bytes end within a number or a record, or before one",
        Refusal::Padded => "a number's last byte is 0 and not its only one",
        Refusal::Range => "a number has over three bytes, or is outside its range",
        Refusal::Extra => "bytes follow the last outline",
        Refusal::Long => "the job is over 4096 bytes",
        Refusal::Missing => "there is no outline of that number",
        Refusal::Room => "a buffer is too short for what would be written",
        Refusal::Preset => "there is no preset of that number",
        Refusal::Record =>
            "a record out of order, of another data type or of wrong length, or bytes after ENDEL",
        Refusal::Unclosed => "the last point is unlike the first",
        Refusal::Extent => "the extent is above 65535",
        Refusal::Largest =>
            "the largest side is below 200, below twice the threshold, or above 65535",
        Refusal::Full => "the job has 255 outlines already",
        Refusal::Shots => "not four numbers a shot, or a shot without area",
        Refusal::Text => "not a CIF text of our form, or a shot in it that is none",
        Refusal::Edge => "there is no edge of that number",
    }
}

// The same on standard error, with no line end.
pub fn say_text(err: Stderr, why: Refusal) {
    say(err, text_of(why).as_bytes());
}
