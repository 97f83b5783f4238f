// The scope in lent cells, with extra cells to find names by. The first of them remember names of the scope, the others hold lists of names.
// What is not remembered is read again, so any number of extra cells will do, and with none these are the plain searches.
ghost use Rattle.std.specs.Prelude.{◌≡◌, false, ◌^◌, ◌<◌, ◌≤◌, length, drop};
ghost use Rattle.varint.specs.Lists.{is_empty};
ghost use Rattle.varint.specs.Bytes.{same};
ghost use Rattle.wire.specs.Message.{text, bytes_of, message};
ghost use Rattle.rules.specs.Names.{name_in};
ghost use Rattle.rules.specs.Verdict.{fills};
ghost use Rattle.rules.specs.Walk.{visible, define};
ghost use Rattle.index.specs.Table.{seek, since};
ghost use Rattle.index.specs.Memory.{known};
ghost use Rattle.scope.specs.Scope.{recorded, scope_in, bytes_in, walk_in, step_says, grows, Direct, Keeps};
ghost use Rattle.scope.specs.Recall.{Recalls, Recalling, Recalled, Remembering, RememberedOn, AddedOn};

use crate::scopes::{Progress, contents_at, length_at, place_at, repeated, room, store};
use headers::{Imports, list_name};
use index::{Listing, known, recall, remember_name, since};
use varint::{Refusal, between, refused, same_bytes};
use wire::Field;

// How the extra cells are used: the caller's seed, how many of them are for the scope, and what the rest holds of the imports, and of the attributes of the
// function that is judged.
#[derive(Clone, Copy)]
pub struct Index {
    pub seed: u64,
    pub split: usize,
    pub imports: Imports,
    pub attributes: Listing,
}

// Has the record this name? Lengths are compared first, so that a longer or shorter name is not read.
fn is_named(model: &[u8], cells: &[u32], i: usize, name: &[u8]) -> bool
    requires { is_empty name.now ≡ false }
    ensures { result ≡ same name.now (recorded model.now cells.now i).bytes }
{
    let len = length_at(cells, i);
    if len != name.len() {
        return false;
    }
    let start = contents_at(place_at(cells, i), len);
    same_bytes(name, between(model, start, start + len))
}

// The newest of the first `used` records that has the name; `names` remembers some of them.
fn find_in(
    model: &[u8],
    cells: &[u32],
    names: &[u32],
    seed: u64,
    used: usize,
    name: &[u8],
) -> Option<usize>
    requires recalls { Recalls model.now seed cells.now names.now }
    requires name_value { is_empty name.now ≡ false }
    ensures { result ≡ seek name.now (bytes_in model.now cells.now used) }
{
    let kept = known(names);
    for i in (kept..used).rev() {
        if is_named(model, cells, i, name) {
            return Some(i);
        }
    }
    recall(model, names, seed, kept.min(used), name)
}

fn find(
    model: &[u8],
    cells: &[u32],
    extra: &[u32],
    ix: Index,
    used: usize,
    name: &[u8],
) -> Option<usize>
    requires recalling { Recalling model.now ix cells.now extra.now }
    requires name_value { is_empty name.now ≡ false }
    ensures { result ≡ seek name.now (bytes_in model.now cells.now used) }
{
    let split = ix.split;
    find_in(model, cells, &extra[..split], ix.seed, used, name)
}

// Is the name among those of the first `used` records?
pub fn sees(model: &[u8], cells: &[u32], extra: &[u32], ix: Index, used: usize, name: &[u8]) -> bool
    requires recalling { Recalling model.now ix cells.now extra.now }
    requires name_value { is_empty name.now ≡ false }
    ensures { result ≡ visible name.now (scope_in model.now cells.now used) }
{
    since(find(model, cells, extra, ix, used, name), 0)
}

// Is it among those of the records from `outer` on, up to `inner`?
pub fn sees_since(
    model: &[u8],
    cells: &[u32],
    extra: &[u32],
    ix: Index,
    outer: usize,
    inner: usize,
    name: &[u8],
) -> bool
    requires recalling { Recalling model.now ix cells.now extra.now }
    requires name_value { is_empty name.now ≡ false }
    ensures { result ≡ since outer (seek name.now (bytes_in model.now cells.now inner)) }
{
    since(find(model, cells, extra, ix, inner, name), outer)
}

// The name in a field is that of the record at `place`.
fn remember(model: &[u8], extra: &mut [u32], ix: Index, place: usize, name: Field)
    requires remembering { Remembering model.now ix extra.old }
    requires model_len_bound { length model.now < 2 ^ 32 }
    ensures { RememberedOn model.now ix place name extra.old extra.new }
{
    let split = ix.split;
    remember_name(model, &mut extra[..split], ix.seed, place, name);
}

// A list with the name of one message more.
pub fn list(
    model: &[u8],
    extra: &mut [u32],
    ix: Index,
    l: Listing,
    m: Field,
    number: u64,
) -> Listing
    requires remembering { Remembering model.now ix extra.old }
    requires top_bound { l.top ≤ known (drop ix.split extra.old) }
    requires model_len_bound { length model.now < 2 ^ 32 }
    ensures { AddedOn model.now ix l (bytes_of model.now number (message model.now m)) extra.old extra.new result }
{
    let split = ix.split;
    list_name(model, &mut extra[split..], ix.seed, l, m, number)
}

// A new name, that in the field `name`: 23, 40, "and is visible from then on".
pub fn define(
    model: &[u8],
    cells: &mut [u32],
    extra: &mut [u32],
    ix: Index,
    p: Progress,
    name: Field,
) -> Result<Progress, Refusal>
    requires direct { Direct model.now name }
    requires name_value { is_empty (text model.now name) ≡ false }
    requires model_len_bound { length model.now < 2 ^ 32 }
    requires recalling { Recalling model.now ix cells.old extra.old }
    ensures answer { step_says model.now cells.new result ≡ define (fills (length cells.old)) (walk_in model.now cells.old p) (name_in model.now name) }
    ensures grown { grows p result }
    ensures kept { Keeps p.used cells.old cells.new }
    ensures memory { Recalled model.now ix cells.new extra.old extra.new }
{
    let used = p.used;
    let place = name.place;
    if let Some(i) = find(model, cells, extra, ix, used, name.text(model)) {
        return repeated(cells, place, i);
    }
    if room(cells.len()) <= used {
        return refused(Refusal::CELLS_FULL, place);
    }
    store(cells, used, place, name.next - name.start);
    remember(model, extra, ix, used, name);
    let more = used + 1;
    Ok(Progress {
        used: more,
        nodes: p.nodes,
        most: p.most.max(more),
        odd: p.odd,
    })
}
