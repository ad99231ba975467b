use graph::Graph;
use std::alloc::Global;
use std::test::Fail;

// A channel: source, destination, out-rate, in-rate, capacity, initial tokens.
#[derive(Clone, Copy)]
pub struct Line(pub u8, pub u8, pub u8, pub u8, pub u16, pub u16);

// The graph of actors A, B and so on with these times, and of these channels, read from its file.
pub fn graph(heap: Global, times: &[u16], lines: &[Line]) -> Result<Graph, Fail> {
    let mut file = [0x01, 0x00, 0x02].to_vec(heap)?;
    file.push(u8::try_from(times.len())?)?;
    file.push(u8::try_from(lines.len())?)?;
    for (name, time) in (b'A'..).zip(times) {
        file.extend_from_slice(&[0x02, 0x00, 0x0A, name, 0, 0, 0, 0, 0, 0, 0])?;
        file.extend_from_slice(&time.to_be_bytes())?;
    }
    for Line(source, dest, p, q, capacity, tokens) in lines {
        file.extend_from_slice(&[0x03, 0x00, 0x08, *source, *dest, *p, *q])?;
        file.extend_from_slice(&capacity.to_be_bytes())?;
        file.extend_from_slice(&tokens.to_be_bytes())?;
    }
    Graph::read(&file).map_err(|_| Fail::new("no graph"))
}
