// The functions so far, as records of a table. Definitions stand in specs/Identified.antt.
ghost use Rattle.std.specs.Prelude.{◌≡◌, map, ◌^◌, ◌≤◌, ◌<◌, length};
ghost use Rattle.wire.specs.Message.{message, whole};
ghost use Rattle.wire.specs.Outline.{Starts};
ghost use Rattle.schema.specs.Numbers.{Model-functions};
ghost use Rattle.rules.specs.Identity.{identity_of, identified};
ghost use Rattle.index.specs.Table.{capacity, Chained};
ghost use Rattle.identities.specs.Functions.{identity_by, functions_before};
ghost use Rattle.identities.specs.Identified.{function_in, identities_in, by_identity, Identified, Added};

use crate::functions::{domain_of, has_earlier, has_identity, overload_of};
use index::{bucket_of_three, capacity, cell, put};
use values::numbers::FUNCTION_NAME;
use wire::Field;

// The wire type of a field with contents.
const LEN: u64 = 2;

// The function of a record, as a field with its contents.
fn function_of(table: &[u32], i: usize) -> Field
    requires { i < capacity (length table.now) }
    ensures { result ≡ function_in table.now i }
{
    let at = capacity(table) + 3 * i;
    let start = cell(table, at);
    Field {
        place: 0,
        number: 0,
        wire: LEN,
        value: 0,
        start,
        next: start + cell(table, at + 1),
    }
}

// Is one of the table's functions the one of this name, domain and overload? Only those in its bucket are looked at.
fn has_record(
    model: &[u8],
    table: &[u32],
    seed: u64,
    used: usize,
    version: u64,
    name: &[u8],
    domain: &[u8],
    overload: &[u8],
) -> bool
    requires { Chained (by_identity model.now seed version (capacity (length table.now))) table.now used }
    ensures { result ≡ identified (identity_by name.now domain.now overload.now) (identities_in model.now version table.now used) }
{
    if used == 0 {
        return false;
    }
    let size = capacity(table);
    let mut i = cell(table, bucket_of_three(name, domain, overload, seed, size));
    // A `while`: it follows the links of a chain and counts nothing.
    while 0 < i {
        let here = i - 1;
        let f = function_of(table, here);
        if has_identity(model, version, f, name, domain, overload) {
            return true;
        }
        i = cell(table, size + 3 * here + 2);
    }
    false
}

// Is an earlier function of the model the same as this one? The model's functions begin at `at`; `known` says how many functions the table has,
// where it has them all.
pub fn is_defined(
    model: &[u8],
    table: &[u32],
    seed: u64,
    known: Option<usize>,
    version: u64,
    at: usize,
    f: Field,
) -> bool
    requires identified { Identified model.now seed version table.now known (functions_before model.now f.place) }
    requires starts { Starts model.now (whole model.now) Model-functions at }
    ensures { result ≡ identified (identity_of model.now version (message model.now f)) (map (λ g. identity_of model.now version (message model.now g)) (functions_before model.now f.place)) }
{
    let name = f.bytes_of(model, FUNCTION_NAME);
    let domain = domain_of(model, f);
    let overload = overload_of(model, version, f);
    match known {
        Some(used) => has_record(model, table, seed, used, version, name, domain, overload),
        None => has_earlier(model, version, at, f.place, name, domain, overload),
    }
}

// The functions with one more: how many the table has now. None where it does not have them all, and then it is left alone from then on.
pub fn add(
    model: &[u8],
    table: &mut [u32],
    seed: u64,
    known: Option<usize>,
    version: u64,
    f: Field,
) -> Option<usize>
    requires identified { Identified model.now seed version table.old known (functions_before model.now f.place) }
    requires model_len_bound { (length model.now < 2 ^ 32) × (f.start ≤ f.next) × (f.next ≤ length model.now) }
    ensures { Added model.now seed version known f table.old table.new result }
{
    let used = known?;
    let size = capacity(table);
    if size <= used {
        return None;
    }
    let name = f.bytes_of(model, FUNCTION_NAME);
    let domain = domain_of(model, f);
    let overload = overload_of(model, version, f);
    let head = bucket_of_three(name, domain, overload, seed, size);
    put(table, used, head, f.start as u32, (f.next - f.start) as u32);
    Some(used + 1)
}
