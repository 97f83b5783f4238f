// Document 01, "Shortcuts that let a bad graph through", each as a good and a bad model. The first line of a model is its header and the
// graph's tag; a body stands further in than its node.
use crate::shown::{row, row_with};
use std::io;

// "Making a node's outputs visible before its bodies are judged: the body then reads its own node's result."
pub(crate) fn own_result(rt: &impl Print) -> io::Result<()> {
    row(
        rt,
        b"a body reads an outer name",
        b"\x08\x08\x42\x02\x10\x0D\x3A\x2A\
          \x12\x01g\
          \x2A\x05\x10\x01\x42\x01w\
          \x0A\x1E\x22\x01X\x2A\x16\x0A\x01a\xA0\x01\x05\x32\x0E\x12\x01b\
            \x0A\x09\x22\x01X\x0A\x01w\x12\x01t\
          \x12\x01y",
    )?;
    row(
        rt,
        b"a body reads its own node's result",
        b"\x08\x08\x42\x02\x10\x0D\x3A\x2A\
          \x12\x01g\
          \x2A\x05\x10\x01\x42\x01w\
          \x0A\x1E\x22\x01X\x2A\x16\x0A\x01a\xA0\x01\x05\x32\x0E\x12\x01b\
            \x0A\x09\x22\x01X\x0A\x01y\x12\x01t\
          \x12\x01y",
    )
}

// "Trusting wire order: nodes may precede inputs and initializers in the file." A body that binds a name which an initializer
// further on in the file binds too would pass; and the order of nodes does count.
pub(crate) fn wire_order(rt: &impl Print) -> io::Result<()> {
    row(
        rt,
        b"a node precedes the input and the initializer that it reads",
        b"\x08\x08\x42\x02\x10\x0D\x3A\x25\
          \x0A\x0C\x22\x01X\x0A\x01x\x0A\x01w\x12\x01y\
          \x5A\x0B\x0A\x01x\x12\x06\x0A\x04\x08\x01\x12\x00\
          \x2A\x05\x10\x01\x42\x01w\x12\x01g",
    )?;
    row(
        rt,
        b"a body binds the name of an initializer that stands after it",
        b"\x08\x08\x42\x02\x10\x0D\x3A\x26\
          \x0A\x1A\x22\x01X\x2A\x12\x0A\x01a\xA0\x01\x05\x32\x0A\x12\x01b\
            \x2A\x05\x10\x01\x42\x01t\
          \x12\x01y\
          \x2A\x05\x10\x01\x42\x01t\x12\x01g",
    )?;
    row(
        rt,
        b"a node reads what the next one binds",
        b"\x08\x08\x42\x02\x10\x0D\x3A\x16\
          \x12\x01g\
          \x0A\x09\x22\x01X\x0A\x01a\x12\x01y\
          \x0A\x06\x22\x01X\x12\x01a",
    )
}

// "Letting the then-branch's names be seen by the else-branch, or by the next node."
pub(crate) fn branches(rt: &impl Print) -> io::Result<()> {
    row(
        rt,
        b"both branches bind one name",
        b"\x08\x08\x42\x02\x10\x0D\x3A\x3D\
          \x12\x01g\
          \x0A\x38\x22\x01X\x2A\x17\x0A\x01t\xA0\x01\x05\x32\x0F\x12\x01b\
            \x2A\x05\x10\x01\x42\x01t\
            \x62\x03\x0A\x01t\
          \x2A\x17\x0A\x01e\xA0\x01\x05\x32\x0F\x12\x01b\
            \x2A\x05\x10\x01\x42\x01t\
            \x62\x03\x0A\x01t\
          \x12\x01y",
    )?;
    row(
        rt,
        b"the else-branch hands out the then-branch's name",
        b"\x08\x08\x42\x02\x10\x0D\x3A\x36\
          \x12\x01g\
          \x0A\x31\x22\x01X\x2A\x17\x0A\x01t\xA0\x01\x05\x32\x0F\x12\x01b\
            \x2A\x05\x10\x01\x42\x01t\
            \x62\x03\x0A\x01t\
          \x2A\x10\x0A\x01e\xA0\x01\x05\x32\x08\x12\x01b\
            \x62\x03\x0A\x01t\
          \x12\x01y",
    )?;
    row(
        rt,
        b"the next node reads the then-branch's name",
        b"\x08\x08\x42\x02\x10\x0D\x3A\x2F\
          \x12\x01g\
          \x0A\x1F\x22\x01X\x2A\x17\x0A\x01t\xA0\x01\x05\x32\x0F\x12\x01b\
            \x2A\x05\x10\x01\x42\x01t\
            \x62\x03\x0A\x01t\
          \x12\x01y\
          \x0A\x09\x22\x01X\x0A\x01t\x12\x01z",
    )
}

// "Counting an input and its default as two names, or as a clash."
pub(crate) fn defaults(rt: &impl Print) -> io::Result<()> {
    let model = b"\x08\x08\x42\x02\x10\x0D\x3A\x22\
          \x12\x01g\
          \x5A\x0B\x0A\x01x\x12\x06\x0A\x04\x08\x01\x12\x00\
          \x2A\x05\x10\x01\x42\x01x\
          \x0A\x09\x22\x01X\x0A\x01x\x12\x01y";
    row_with(
        rt,
        b"an input with a default, four cells",
        model,
        &mut [0; 4],
    )?;
    row_with(
        rt,
        b"an input with a default, three cells",
        model,
        &mut [0; 3],
    )?;
    row(
        rt,
        b"an input with two defaults",
        b"\x08\x08\x42\x02\x10\x0D\x3A\x29\
          \x12\x01g\
          \x5A\x0B\x0A\x01x\x12\x06\x0A\x04\x08\x01\x12\x00\
          \x2A\x05\x10\x01\x42\x01x\
          \x2A\x05\x10\x01\x42\x01x\
          \x0A\x09\x22\x01X\x0A\x01x\x12\x01y",
    )
}

// "Comparing only the shorter name's length, so `w` matches `w1`."
pub(crate) fn prefixes(rt: &impl Print) -> io::Result<()> {
    row(
        rt,
        b"w beside w1",
        b"\x08\x08\x42\x02\x10\x0D\x3A\x1E\
          \x12\x01g\
          \x2A\x05\x10\x01\x42\x01w\
          \x2A\x06\x10\x01\x42\x02w1\
          \x0A\x0A\x22\x01X\x0A\x02w1\x12\x01y",
    )?;
    row(
        rt,
        b"w1 is read and w is there",
        b"\x08\x08\x42\x02\x10\x0D\x3A\x16\
          \x12\x01g\
          \x2A\x05\x10\x01\x42\x01w\
          \x0A\x0A\x22\x01X\x0A\x02w1\x12\x01y",
    )?;
    row(
        rt,
        b"w is read and w1 is there",
        b"\x08\x08\x42\x02\x10\x0D\x3A\x16\
          \x12\x01g\
          \x2A\x06\x10\x01\x42\x02w1\
          \x0A\x09\x22\x01X\x0A\x01w\x12\x01y",
    )
}
