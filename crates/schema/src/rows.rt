// The rows of document 01: a function for each message, and in it a line for each field.
ghost use Rattle.std.specs.Prelude.{◌≡◌};
ghost use Rattle.schema.specs.Rows.{row_of};
ghost use Rattle.schema.specs.declared.Kind.TheVariants as kind;

use crate::{Holds, Kind, Row};

fn model_row(number: u64) -> Row
    ensures { result ≡ row_of kind.Model number }
{
    match number {
        1 => Row::Once(Holds::Varint), // ir_version
        7 => Row::Once(Holds::Message(Kind::Graph)), // graph
        8 => Row::Many(Holds::Message(Kind::OperatorSetId)), // opset_import
        25 => Row::Many(Holds::Message(Kind::Function)), // functions
        _ => Row::Unknown,
    }
}

fn operator_set_id_row(number: u64) -> Row
    ensures { result ≡ row_of kind.OperatorSetId number }
{
    match number {
        1 => Row::Once(Holds::Bytes), // domain
        2 => Row::Once(Holds::Varint), // version
        _ => Row::Unknown,
    }
}

fn function_row(number: u64) -> Row
    ensures { result ≡ row_of kind.Function number }
{
    match number {
        1 => Row::Once(Holds::Bytes), // name
        4 => Row::Many(Holds::Bytes), // input
        5 => Row::Many(Holds::Bytes), // output
        6 => Row::Many(Holds::Bytes), // attribute
        7 => Row::Many(Holds::Message(Kind::Node)), // node
        9 => Row::Many(Holds::Message(Kind::OperatorSetId)), // opset_import
        10 => Row::Once(Holds::Bytes), // domain
        11 => Row::Many(Holds::Message(Kind::Attribute)), // attribute_proto
        13 => Row::Once(Holds::Bytes), // overload
        _ => Row::Unknown,
    }
}

fn graph_row(number: u64) -> Row
    ensures { result ≡ row_of kind.Graph number }
{
    match number {
        1 => Row::Many(Holds::Message(Kind::Node)), // node
        2 => Row::Once(Holds::Bytes), // name
        5 => Row::Many(Holds::Message(Kind::Tensor)), // initializer
        11 => Row::Many(Holds::Message(Kind::ValueInfo)), // input
        12 => Row::Many(Holds::Message(Kind::ValueInfo)), // output
        13 => Row::Many(Holds::Message(Kind::ValueInfo)), // value_info
        15 => Row::Many(Holds::Bytes), // sparse_initializer
        _ => Row::Unknown,
    }
}

fn node_row(number: u64) -> Row
    ensures { result ≡ row_of kind.Node number }
{
    match number {
        1 => Row::Many(Holds::Bytes), // input
        2 => Row::Many(Holds::Bytes), // output
        3 => Row::Once(Holds::Bytes), // name
        4 => Row::Once(Holds::Bytes), // op_type
        5 => Row::Many(Holds::Message(Kind::Attribute)), // attribute
        7 => Row::Once(Holds::Bytes), // domain
        _ => Row::Unknown,
    }
}

fn attribute_row(number: u64) -> Row
    ensures { result ≡ row_of kind.Attribute number }
{
    match number {
        1 => Row::Once(Holds::Bytes), // name
        2 => Row::Once(Holds::Four), // f
        3 => Row::Once(Holds::Varint), // i
        4 => Row::Once(Holds::Bytes), // s
        5 => Row::Once(Holds::Message(Kind::Tensor)), // t
        6 => Row::Once(Holds::Message(Kind::Graph)), // g
        7 => Row::Packable(Holds::Four), // floats
        8 => Row::Packable(Holds::Varint), // ints
        9 => Row::Many(Holds::Bytes), // strings
        10 => Row::Many(Holds::Message(Kind::Tensor)), // tensors
        11 => Row::Many(Holds::Message(Kind::Graph)), // graphs
        14 => Row::Once(Holds::Bytes), // tp
        15 => Row::Many(Holds::Bytes), // type_protos
        20 => Row::Once(Holds::Varint), // type
        21 => Row::Once(Holds::Bytes), // ref_attr_name
        22 => Row::Once(Holds::Bytes), // sparse_tensor
        23 => Row::Many(Holds::Bytes), // sparse_tensors
        _ => Row::Unknown,
    }
}

fn tensor_row(number: u64) -> Row
    ensures { result ≡ row_of kind.Tensor number }
{
    match number {
        2 => Row::Once(Holds::Varint), // data_type
        8 => Row::Once(Holds::Bytes), // name
        _ => Row::Unknown,
    }
}

fn value_info_row(number: u64) -> Row
    ensures { result ≡ row_of kind.ValueInfo number }
{
    match number {
        1 => Row::Once(Holds::Bytes), // name
        2 => Row::Once(Holds::Message(Kind::TypeProto)), // type
        _ => Row::Unknown,
    }
}

fn type_proto_row(number: u64) -> Row
    ensures { result ≡ row_of kind.TypeProto number }
{
    match number {
        1 => Row::OneOf(Holds::Message(Kind::TensorType)), // tensor
        4 => Row::OneOf(Holds::Bytes),
        5 => Row::OneOf(Holds::Bytes),
        7 => Row::OneOf(Holds::Bytes),
        8 => Row::OneOf(Holds::Bytes),
        9 => Row::OneOf(Holds::Bytes),
        _ => Row::Unknown,
    }
}

fn tensor_type_row(number: u64) -> Row
    ensures { result ≡ row_of kind.TensorType number }
{
    match number {
        1 => Row::Once(Holds::Varint), // elem_type
        2 => Row::Once(Holds::Message(Kind::Shape)), // shape
        _ => Row::Unknown,
    }
}

fn shape_row(number: u64) -> Row
    ensures { result ≡ row_of kind.Shape number }
{
    match number {
        1 => Row::Many(Holds::Message(Kind::Dimension)), // dim
        _ => Row::Unknown,
    }
}

fn dimension_row(number: u64) -> Row
    ensures { result ≡ row_of kind.Dimension number }
{
    match number {
        1 => Row::OneOf(Holds::Varint), // dim_value
        2 => Row::OneOf(Holds::Bytes), // dim_param
        _ => Row::Unknown,
    }
}

// The row of a field by its message and number.
pub fn row_of(kind: Kind, number: u64) -> Row
    ensures { result ≡ row_of kind number }
{
    match kind {
        Kind::Model => model_row(number),
        Kind::OperatorSetId => operator_set_id_row(number),
        Kind::Function => function_row(number),
        Kind::Graph => graph_row(number),
        Kind::Node => node_row(number),
        Kind::Attribute => attribute_row(number),
        Kind::Tensor => tensor_row(number),
        Kind::ValueInfo => value_info_row(number),
        Kind::TypeProto => type_proto_row(number),
        Kind::TensorType => tensor_type_row(number),
        Kind::Shape => shape_row(number),
        Kind::Dimension => dimension_row(number),
    }
}
