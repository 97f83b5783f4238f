// The program: two files in, one line out. The contract of `reply` says what the line is; the rest reads and writes, of which no
// contract can speak.
#![tactic(auto)]

mod decisions;
mod files;

use decisions::reply;
use files::load;
use std::io;

// "It has a model buffer of 32,768 bytes, a list buffer of 4,096 bytes and 4,096 cells."
fn main(rt: HostRuntime) -> io::Result<()> {
    let mut list = [0u8; 4096];
    let listed = load(&rt, "operators.lst", &mut list);
    let mut model = [0u8; 32768];
    let modelled = load(&rt, "model.onnx", &mut model);
    let m = modelled.size;
    let l = listed.size;
    let mut text = [0u8; 96];
    let n = reply(
        &model[..m],
        modelled.is_longer,
        &list[..l],
        listed.is_longer,
        &mut text,
    );
    rt.write_all(&text[..n])
}
