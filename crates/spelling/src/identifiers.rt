// "A name is a C90 identifier: a letter or underscore, then letters, digits, underscores, ASCII only, keywords allowed".
ghost use Rattle.std.specs.Prelude.{◌≤◌, ◌≡◌, true, ◌||◌, ◌&&◌, length, drop, leb};
ghost use Rattle.spelling.specs.Identifier.{is_letter, is_digit, identifier};
ghost use Rattle.spelling.specs.ByteClass.{byte_class, tabulates};
ghost use Rattle.spelling.specs.Utf8.{well_formed};

// The class of each byte, 64 to a row: `a` for a letter or underscore, `0` for a digit, `.` for any other. It says nothing of UTF-8, but
// that a byte of the first two is ASCII.
const CLASSES: [u8; 256] = *b"\
    ................................................0000000000......\
    .aaaaaaaaaaaaaaaaaaaaaaaaaa....a.aaaaaaaaaaaaaaaaaaaaaaaaaa.....\
    ................................................................\
    ................................................................";

fn class_of(classes: &[u8; 256], b: u8) -> u8
    requires { tabulates byte_class 256 classes.now ≡ true }
    ensures { result ≡ byte_class b }
{
    classes[b as usize]
}

fn is_letter(classes: &[u8; 256], b: u8) -> bool
    requires { tabulates byte_class 256 classes.now ≡ true }
    ensures { result ≡ is_letter b }
{
    class_of(classes, b) == b'a'
}

fn is_identifier_byte(classes: &[u8; 256], b: u8) -> bool
    requires { tabulates byte_class 256 classes.now ≡ true }
    ensures { result ≡ (is_letter b || is_digit b) }
{
    class_of(classes, b) != b'.'
}

// With the table lent: Rattle lays out a constant array on the stack wherever one is read, which is here once for a name and not for
// each byte.
fn part_by(classes: &[u8; 256], name: &[u8]) -> usize
    requires { tabulates byte_class 256 classes.now ≡ true }
    ensures upper_bound { result ≤ length name.now }
    ensures name_value { identifier name.now ≡ (leb 1 result && leb (length name.now) result) }
    ensures name_value_2 { well_formed (drop result name.now) ≡ well_formed name.now }
{
    let [first, rest @ ..] = name else {
        return 0;
    };
    if !is_letter(classes, *first) {
        return 0;
    }
    for (i, b) in rest.iter().enumerate() {
        if !is_identifier_byte(classes, *b) {
            return i + 1;
        }
    }
    name.len()
}

// How many bytes at the start an identifier could begin with. They are ASCII, so that a test for UTF-8 may go on behind them.
pub(crate) fn identifier_part(name: &[u8]) -> usize
    ensures upper_bound { result ≤ length name.now }
    ensures name_value { identifier name.now ≡ (leb 1 result && leb (length name.now) result) }
    ensures name_value_2 { well_formed (drop result name.now) ≡ well_formed name.now }
{
    part_by(&CLASSES, name)
}
