// What surrounds a graph or the body of a function, as one value: it goes from graph to node to attribute and back to the graphs within.
ghost use Rattle.std.specs.Prelude.{◌≡◌, not, ◌&&◌};
ghost use Rattle.varint.specs.Bytes.{Bytes};
ghost use Rattle.rules.specs.Graph.{at_ir3, takes_defaults};
ghost use Rattle.messages.specs.Around.{field_of, inside, import_number, context};

use values::numbers::{FUNCTION_OPSET_IMPORT, GRAPH_NODE, MODEL_OPSET_IMPORT};
use wire::Field;

// Whose imports serve: the model's, or those of a function, whose attributes a reference may name.
#[derive(Clone, Copy)]
pub enum Owner {
    Model(Field),
    Function(Field),
}

impl Owner {
    #[tactic(auto, unfolding(crate::specs::Around::field_of))]
    pub fn field(self) -> Field
        ensures { result ≡ field_of self }
    {
        match self {
            Owner::Model(f) => f,
            Owner::Function(f) => f,
        }
    }
}

// Whether it is the main graph; its model's IR version; the number of the fields that hold its nodes; and whose imports serve.
#[derive(Clone, Copy)]
pub struct Surroundings {
    pub main: bool,
    pub version: u64,
    pub nodes: u64,
    pub owner: Owner,
}

impl Surroundings {
    // Of a graph inside this one.
    #[tactic(auto, unfolding(crate::specs::Around::inside))]
    pub fn nested(self) -> Surroundings
        ensures { result ≡ inside self }
    {
        Surroundings {
            main: false,
            version: self.version,
            nodes: GRAPH_NODE,
            owner: self.owner,
        }
    }

    // The number of the owner's fields that hold its imports.
    #[tactic(auto, unfolding(crate::specs::Around::import_number))]
    pub fn import_number(self) -> u64
        ensures { result ≡ import_number self }
    {
        match self.owner {
            Owner::Model(_) => MODEL_OPSET_IMPORT,
            Owner::Function(_) => FUNCTION_OPSET_IMPORT,
        }
    }

    #[tactic(auto, unfolding(rules::specs::Graph::at_ir3, crate::specs::Around::context))]
    fn at_ir_3(self) -> bool
        ensures { (model : Bytes) → result ≡ at_ir3 (context model self) }
    {
        self.version == 3
    }

    // May an initializer be the default of an input?
    pub fn takes_defaults(self) -> bool
        ensures { (model : Bytes) → result ≡ takes_defaults (context model self) }
    {
        if self.main {
            return true;
        }
        self.at_ir_3()
    }

    // "At IR 3 each initializer must bear the name of an input": `own` says whether it does.
    pub fn lacks_input(self, own: bool) -> bool
        ensures { (model : Bytes) → result ≡ (at_ir3 (context model self) && not own) }
    {
        if own {
            return false;
        }
        self.at_ir_3()
    }
}
