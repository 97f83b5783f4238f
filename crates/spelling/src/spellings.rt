// One reading of a name tells whether it is an identifier, or else whether it is well-formed.
ghost use Rattle.std.specs.Prelude.{◌≡◌};
ghost use Rattle.spelling.specs.Spelling.{spelling_says, spelled};

use crate::identifiers::identifier_part;
use crate::utf8::is_well_formed;

// What a name is.
#[derive(Clone, Copy)]
pub enum Spelling {
    Identifier,
    OtherText,
    NotUtf8,
}

pub fn spell(name: &[u8]) -> Spelling
    ensures { spelling_says result ≡ spelled name.now }
{
    let part = identifier_part(name);
    if part < name.len() {
        if is_well_formed(&name[part..]) {
            return Spelling::OtherText;
        }
        return Spelling::NotUtf8;
    }
    // The empty name is no identifier.
    if part == 0 {
        return Spelling::OtherText;
    }
    Spelling::Identifier
}
