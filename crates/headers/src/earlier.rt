// Names that stood earlier in a list. A listing finds them, where extra cells hold all of them; else they are read again where they stand.
ghost use Rattle.std.specs.Prelude.{◌≡◌, false, ◌^◌, ◌≤◌, ◌<◌, length};
ghost use Rattle.varint.specs.Lists.{is_empty};
ghost use Rattle.varint.specs.Bytes.{member};
ghost use Rattle.wire.specs.Message.{all_of, bytes_of, message};
ghost use Rattle.index.specs.Table.{Indexed};
ghost use Rattle.index.specs.Memory.{known, table_of};
ghost use Rattle.index.specs.Listing.{Listed, Added};
ghost use Rattle.headers.specs.Earlier.{before, before_from, AnySays, names_in, texts_in};

use index::Listing;
use varint::same_bytes;
use wire::{Cursor, Field};

// Does one of the fields `number` pass the test, of those from the cursor on, as far as they stand before `place`? The first that passes ends it.
pub fn any_before<F: Fn(Field) -> bool>(
    model: &[u8],
    from: Cursor,
    number: u64,
    place: usize,
    test: F,
) -> bool
    requires { F.IsAlwaysCallable test }
    ensures { AnySays (F.post test) (before_from model.now number place from) result }
{
    let mut c = from;
    while let Some((f, next)) = c.next_of(model, number) {
        if place <= f.place {
            return false;
        }
        if test(f) {
            return true;
        }
        c = next;
    }
    false
}

// Of the messages in fields `number` of `m`, as far as they stand before `place`: does one have `text` in its field `name`?
pub fn is_earlier(model: &[u8], m: Field, number: u64, name: u64, place: usize, text: &[u8]) -> bool
    ensures { result ≡ member text.now (names_in model.now name (before place (all_of number (message model.now m)))) }
{
    any_before(
        model,
        m.contents(),
        number,
        place,
        |f| same_bytes(text, f.bytes_of(model, name)),
    )
}

// The same of fields that are names themselves.
pub fn is_earlier_field(model: &[u8], m: Field, number: u64, place: usize, name: &[u8]) -> bool
    ensures { result ≡ member name.now (texts_in model.now (before place (all_of number (message model.now m)))) }
{
    any_before(
        model,
        m.contents(),
        number,
        place,
        |f| same_bytes(name, f.text(model)),
    )
}

// The same of a name that is not empty, by the listing of those names.
pub fn is_listed(
    model: &[u8],
    lists: &[u32],
    seed: u64,
    l: Listing,
    m: Field,
    number: u64,
    name: u64,
    place: usize,
    text: &[u8],
) -> bool
    requires listed { Listed model.now seed lists.now l (names_in model.now name (before place (all_of number (message model.now m)))) }
    requires text_value { is_empty text.now ≡ false }
    ensures { result ≡ member text.now (names_in model.now name (before place (all_of number (message model.now m)))) }
{
    if l.whole {
        return l.has(model, lists, seed, text);
    }
    is_earlier(model, m, number, name, place, text)
}

// The listing with the name of one message more; a message without a name adds nothing.
pub fn list_name(
    model: &[u8],
    lists: &mut [u32],
    seed: u64,
    l: Listing,
    m: Field,
    number: u64,
) -> Listing
    requires indexed { Indexed model.now seed (table_of lists.old) (known lists.old) }
    requires top_bound { l.top ≤ known lists.old }
    requires model_len_bound { length model.now < 2 ^ 32 }
    ensures { Added model.now seed l (bytes_of model.now number (message model.now m)) lists.old lists.new result }
{
    let Some((name, _)) = m.first_of(model, number) else {
        return l;
    };
    let text = name.text(model);
    if text.len() == 0 {
        return l;
    }
    l.add(model, lists, seed, name)
}
