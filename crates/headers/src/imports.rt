// The imports of a model or of a function, which stand in the fields `number` of a message: which domains they name, and the rules of each.
ghost use Rattle.varint.specs.Answers.{outcome_of};
ghost use Rattle.std.specs.Prelude.{◌≡◌, [], ◌^◌, ◌≤◌, ◌<◌, length};
ghost use Rattle.varint.specs.Outcome.{each};
ghost use Rattle.varint.specs.Bytes.{member};
ghost use Rattle.wire.specs.Message.{all_of, message};
ghost use Rattle.operators.specs.Operators.{domain};
ghost use Rattle.schema.specs.Answers.{silent};
ghost use Rattle.rules.specs.Import.{opset_import};
ghost use Rattle.index.specs.Table.{Indexed};
ghost use Rattle.index.specs.Memory.{known, table_of};
ghost use Rattle.index.specs.Listing.{Held};
ghost use Rattle.headers.specs.Imports.{imports_before, ImportsFrom};
ghost use Rattle.headers.specs.Imported.{Imported, ImportAdded, ruling_of, holds};

use crate::earlier::{any_before, list_name};
use index::Listing;
use operators::{allows, canonical, same_domain};
use values::numbers::{OPERATOR_SET_ID_DOMAIN, OPERATOR_SET_ID_VERSION};
use varint::{Refusal, refused};
use wire::{Cursor, Field};

// The domains that are imported: a listing of those with a name, and whether the default domain is one, which has none: a listing
// holds names, so that this one stands beside it.
#[derive(Clone, Copy)]
pub struct Imports {
    pub listing: Listing,
    pub default: bool,
}

// Is the domain that of an import before this place? The imports are read again.
fn is_imported_before(model: &[u8], m: Field, number: u64, place: usize, d: &[u8]) -> bool
    ensures { result ≡ member (domain d.now) (imports_before model.now number m place) }
{
    any_before(
        model,
        m.contents(),
        number,
        place,
        |f| same_domain(d, f.bytes_of(model, OPERATOR_SET_ID_DOMAIN)),
    )
}

// The same, by what is kept of the imports before this place.
pub fn is_imported(
    model: &[u8],
    lists: &[u32],
    seed: u64,
    imports: Imports,
    m: Field,
    number: u64,
    place: usize,
    d: &[u8],
) -> bool
    requires { Imported model.now seed lists.now imports (imports_before model.now number m place) }
    ensures { result ≡ member (domain d.now) (imports_before model.now number m place) }
{
    let name = canonical(d);
    if name.len() == 0 {
        return imports.default;
    }
    let l = imports.listing;
    if l.whole {
        return l.has(model, lists, seed, name);
    }
    is_imported_before(model, m, number, place, d)
}

// The imports with one more.
fn list_import(model: &[u8], lists: &mut [u32], seed: u64, imports: Imports, f: Field) -> Imports
    requires indexed { Indexed model.now seed (table_of lists.old) (known lists.old) }
    requires top_bound { imports.listing.top ≤ known lists.old }
    requires model_len_bound { length model.now < 2 ^ 32 }
    ensures { ImportAdded model.now seed imports f lists.old lists.new result }
{
    let l = imports.listing;
    let name = canonical(f.bytes_of(model, OPERATOR_SET_ID_DOMAIN));
    if name.len() == 0 {
        return Imports {
            listing: l,
            default: true,
        };
    }
    let more = list_name(model, lists, seed, l, f, OPERATOR_SET_ID_DOMAIN);
    Imports {
        listing: more,
        default: imports.default,
    }
}

// "each import in order (13 then 14)": the domain is imported already, or the operator list lacks its version.
fn opset_import(
    model: &[u8],
    list: &[u8],
    lists: &[u32],
    seed: u64,
    imports: Imports,
    m: Field,
    number: u64,
    f: Field,
) -> Result<(), Refusal>
    requires { Imported model.now seed lists.now imports (imports_before model.now number m f.place) }
    ensures { outcome_of result ≡ silent (opset_import model.now list.now (imports_before model.now number m f.place) f) }
{
    let d = f.bytes_of(model, OPERATOR_SET_ID_DOMAIN);
    if is_imported(model, lists, seed, imports, m, number, f.place, d) {
        return refused(Refusal::IMPORTED_TWICE, f.place);
    }
    if !allows(list, d, f.number_of(model, OPERATOR_SET_ID_VERSION)) {
        return refused(Refusal::VERSION_NOT_LISTED, f.place);
    }
    Ok(())
}

// Those from `at` on, listed above the oldest `top` names. An import that is passed has a domain that is new and in the operator list: there are never
// more of them than that has entries.
pub fn opset_imports(
    model: &[u8],
    list: &[u8],
    lists: &mut [u32],
    seed: u64,
    top: usize,
    m: Field,
    number: u64,
    at: usize,
) -> Result<Imports, Refusal>
    requires imports_from { ImportsFrom model.now number m at }
    requires indexed { Indexed model.now seed (table_of lists.old) (known lists.old) }
    requires top_bound { top ≤ known lists.old }
    requires model_len_bound { length model.now < 2 ^ 32 }
    ensures answer { outcome_of (ruling_of result) ≡ silent (each (opset_import model.now list.now) [] (all_of number (message model.now m))) }
    ensures imported { holds model.now number m seed top lists.new result }
    ensures held { Held model.now seed top lists.old lists.new }
{
    let mut c = Cursor { at, end: m.next };
    let none = Listing {
        base: top,
        top,
        whole: true,
    };
    let mut imports = Imports {
        listing: none,
        default: false,
    };
    while let Some((f, next)) = c.next_of(model, number) {
        opset_import(model, list, lists, seed, imports, m, number, f)?;
        imports = list_import(model, lists, seed, imports, f);
        c = next;
    }
    Ok(imports)
}
