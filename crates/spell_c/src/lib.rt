// What bench/ links: the test of a name, for a program in C or Rust.
#![tactic(auto)]

ghost use Rattle.std.specs.Prelude.{◌≡◌};
ghost use Rattle.spelling.specs.Spelling.{spelled};
ghost use Rattle.spell_c.specs.Exports.{numbered};

use spelling::{Spelling, spell};

// 0 for an identifier, 1 for any other name that is well-formed UTF-8, 2 for bytes that are not.
#[unsafe(no_mangle)]
pub extern "C" fn spell_c_spell(name: &[u8]) -> u64
    ensures { result ≡ numbered (spelled name.now) }
{
    match spell(name) {
        Spelling::Identifier => 0,
        Spelling::OtherText => 1,
        Spelling::NotUtf8 => 2,
    }
}
