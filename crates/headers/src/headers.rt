// "Header order: 10, 11, 12, each import in order (13 then 14)"
ghost use Rattle.varint.specs.Answers.{outcome_of};
ghost use Rattle.std.specs.Prelude.{◌≡◌, ℕ, ◌^◌, ◌<◌, List, length};
ghost use Rattle.varint.specs.Outcome.{refused};
ghost use Rattle.varint.specs.Bytes.{Bytes};
ghost use Rattle.varint.specs.Lists.{within};
ghost use Rattle.wire.specs.Message.{message, whole};
ghost use Rattle.wire.specs.declared.Field.{Field};
ghost use Rattle.schema.specs.Numbers.{Model-opset_import};
ghost use Rattle.schema.specs.Answers.{silent};
ghost use Rattle.rules.specs.Header.{header};
ghost use Rattle.index.specs.Table.{Indexed};
ghost use Rattle.index.specs.Memory.{known, table_of};
ghost use Rattle.index.specs.Listing.{Held};
ghost use Rattle.headers.specs.Imported.{Outlined, ruling_of, holds};

use crate::imports::{Imports, opset_imports};
use crate::wholes::{has_from, number_from, whole};
use values::numbers::{MODEL_GRAPH, MODEL_IR_VERSION, MODEL_OPSET_IMPORT};
use varint::{Refusal, refused};
use wire::Outline;

// "Refusal 10 now means outside 3..11."
fn is_ir_version(version: u64) -> bool
    ensures { result ≡ within 3 11 version }
{
    if version < 3 {
        return false;
    }
    version <= 11
}

// What a model says of itself, before its main graph is judged. The cells for lists then hold the imports.
pub fn header(
    model: &[u8],
    list: &[u8],
    lists: &mut [u32],
    seed: u64,
    o: Outline,
) -> Result<Imports, Refusal>
    requires outlined { Outlined model.now o }
    requires indexed { Indexed model.now seed (table_of lists.old) (known lists.old) }
    requires model_len_bound { length model.now < 2 ^ 32 }
    ensures answer { outcome_of (ruling_of result) ≡ silent (header model.now list.now (message model.now (whole model.now))) }
    ensures imported { holds model.now Model-opset_import (whole model.now) seed 0 lists.new result }
    ensures held { Held model.now seed 0 lists.old lists.new }
{
    let m = whole(model);
    if !is_ir_version(number_from(model, m, MODEL_IR_VERSION, o.first)) {
        return refused(Refusal::BAD_IR_VERSION, m.place_of(model, MODEL_IR_VERSION));
    }
    if !has_from(model, m, MODEL_GRAPH, o.second) {
        return refused(Refusal::NO_GRAPH, m.place);
    }
    if !has_from(model, m, MODEL_OPSET_IMPORT, o.third) {
        return refused(Refusal::NO_OPSET_IMPORT, m.place);
    }
    opset_imports(model, list, lists, seed, 0, m, MODEL_OPSET_IMPORT, o.third)
}
