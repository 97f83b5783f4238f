// The numbers of the fields that the second walk reads, message by message, as in document 01's rows and document 02's.
pub const MODEL_IR_VERSION: u64 = 1;

pub const MODEL_GRAPH: u64 = 7;

pub const MODEL_OPSET_IMPORT: u64 = 8;

pub const MODEL_FUNCTIONS: u64 = 25;

pub const OPERATOR_SET_ID_DOMAIN: u64 = 1;

pub const OPERATOR_SET_ID_VERSION: u64 = 2;

pub const FUNCTION_NAME: u64 = 1;

pub const FUNCTION_INPUT: u64 = 4;

pub const FUNCTION_OUTPUT: u64 = 5;

pub const FUNCTION_ATTRIBUTE: u64 = 6;

pub const FUNCTION_NODE: u64 = 7;

pub const FUNCTION_OPSET_IMPORT: u64 = 9;

pub const FUNCTION_DOMAIN: u64 = 10;

pub const FUNCTION_ATTRIBUTE_PROTO: u64 = 11;

pub const FUNCTION_OVERLOAD: u64 = 13;

pub const GRAPH_NODE: u64 = 1;

pub const GRAPH_NAME: u64 = 2;

pub const GRAPH_INITIALIZER: u64 = 5;

pub const GRAPH_INPUT: u64 = 11;

pub const GRAPH_OUTPUT: u64 = 12;

pub const GRAPH_SPARSE_INITIALIZER: u64 = 15;

pub const NODE_INPUT: u64 = 1;

pub const NODE_OUTPUT: u64 = 2;

pub const NODE_NAME: u64 = 3;

pub const NODE_OP_TYPE: u64 = 4;

pub const NODE_ATTRIBUTE: u64 = 5;

pub const NODE_DOMAIN: u64 = 7;

pub const ATTRIBUTE_NAME: u64 = 1;

pub const ATTRIBUTE_G: u64 = 6;

pub const ATTRIBUTE_GRAPHS: u64 = 11;

pub const ATTRIBUTE_TYPE: u64 = 20;

pub const ATTRIBUTE_REF_ATTR_NAME: u64 = 21;

pub const TENSOR_DATA_TYPE: u64 = 2;

pub const TENSOR_NAME: u64 = 8;

pub const VALUE_INFO_NAME: u64 = 1;

pub const VALUE_INFO_TYPE: u64 = 2;

pub const TYPE_TENSOR: u64 = 1;

pub const TENSOR_TYPE_ELEM_TYPE: u64 = 1;

pub const TENSOR_TYPE_SHAPE: u64 = 2;

pub const SHAPE_DIM: u64 = 1;

pub const DIMENSION_DIM_VALUE: u64 = 1;

pub const DIMENSION_DIM_PARAM: u64 = 2;
