// Lists of names on one memory, each begun where another stands. Definitions stand in specs/Listing.antt.
ghost use Rattle.std.specs.Prelude.{◌≡◌, ◌^◌, ◌≤◌, ◌<◌, length};
ghost use Rattle.wire.specs.Message.{text};
ghost use Rattle.index.specs.Table.{names_in, seek, since, Indexed};
ghost use Rattle.index.specs.Memory.{known, table_of};
ghost use Rattle.index.specs.Listing.{Added};

use crate::memories::{known, recall, remember_name};
use crate::since;
use wire::Field;

// A list's own names are those that are remembered from `base` on, up to `top`: all of them if it is whole. A list that found no
// room is not whole, and its names must be read again: `whole` stands beside `top`, since the next list begins at `top` either way.
#[derive(Clone, Copy)]
pub struct Listing {
    pub base: usize,
    pub top: usize,
    pub whole: bool,
}

impl Listing {
    // Is the name among the list's own?
    pub fn has(self, model: &[u8], cells: &[u32], seed: u64, name: &[u8]) -> bool
        requires indexed { Indexed model.now seed (table_of cells.now) (known cells.now) }
        requires top_bound { self.top ≤ known cells.now }
        ensures { result ≡ since self.base (seek name.now (names_in model.now (table_of cells.now) self.top)) }
    {
        since(recall(model, cells, seed, self.top, name), self.base)
    }

    // One name more, that in a field.
    pub fn add(self, model: &[u8], cells: &mut [u32], seed: u64, name: Field) -> Listing
        requires indexed { Indexed model.now seed (table_of cells.old) (known cells.old) }
        requires top_bound { self.top ≤ known cells.old }
        requires model_len_bound { length model.now < 2 ^ 32 }
        ensures { Added model.now seed self (text model.now name) cells.old cells.new result }
    {
        let top = self.top;
        if !self.whole {
            return self;
        }
        remember_name(model, cells, seed, top, name);
        if top < known(cells) {
            return Listing {
                base: self.base,
                top: top + 1,
                whole: true,
            };
        }
        Listing {
            base: self.base,
            top,
            whole: false,
        }
    }
}
