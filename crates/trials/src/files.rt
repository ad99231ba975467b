use graph::Graph;
use std::test::Fail;

// A, of time 1, to B, of time 2: rates 2 and 3, capacity 4.
const PAIR: [u8; 42] = [
    0x01, 0x00, 0x02, 0x02, 0x01, 0x02, 0x00, 0x0A, 0x41, 0x00, 0x00, 0x00, 0x00, 0x00, 0x00, 0x00,
    0x00, 0x01, 0x02, 0x00, 0x0A, 0x42, 0x00, 0x00, 0x00, 0x00, 0x00, 0x00, 0x00, 0x00, 0x02, 0x03,
    0x00, 0x08, 0x00, 0x01, 0x02, 0x03, 0x00, 0x04, 0x00, 0x00,
];

// Checks that bytes are refused with that number and place.
fn refused(bytes: &[u8], layer: &str, number: u8, place: u8) -> Result<(), Fail> {
    let Err(fault) = Graph::read(bytes) else {
        return Err(Fail::new("accepted"));
    };
    if fault.layer() != layer || fault.number() != number || fault.place() != place {
        return Err(Fail::new("another refusal"));
    }
    Ok(())
}

// The pair with one byte set.
fn with(at: usize, value: u8) -> [u8; 42] {
    let mut file = PAIR;
    if let Some(byte) = file.get_mut(at) {
        *byte = value;
    }
    file
}

#[test]
fn pair_reads_and_writes_back(rt: HostRuntime) -> Result<(), Fail> {
    let Ok(graph) = Graph::read(&PAIR) else {
        return Err(Fail::new("refused"));
    };
    assert!(rt; graph.counts() == [3, 2].as_slice());
    assert_eq!(rt; graph.actors().len(), 2);
    assert_eq!(rt; graph.channels().len(), 1);
    let mut out = [7; 44];
    let Err(fault) = graph.write(&mut out[..41]) else {
        return Err(Fail::new("41 bytes sufficed"));
    };
    assert_eq!(rt; fault.number(), 20);
    assert!(rt; out == [7; 44], "a refusal leaves the buffer");
    let Ok(size) = graph.write(&mut out) else {
        return Err(Fail::new("not written"));
    };
    assert_eq!(rt; size, 42);
    assert!(rt; &out[..42] == &PAIR[..]);
    assert!(rt; out[42] == 7 && out[43] == 7);
    Ok(())
}

#[test]
fn refusals_of_fields(rt: HostRuntime) -> Result<(), Fail> {
    refused(&[], "fields", 1, 0)?;
    refused(&[2, 0, 2], "fields", 2, 0)?;
    refused(&[1, 0, 3], "fields", 3, 0)?;
    refused(&PAIR[0..30], "fields", 1, 2)?;
    let mut longer = [0; 43];
    longer[0..42].copy_from_slice(&PAIR);
    refused(&longer, "fields", 4, 4)
}

#[test]
fn refusals_of_the_graph(rt: HostRuntime) -> Result<(), Fail> {
    refused(&with(3, 0), "graph", 5, 0)?;
    refused(&with(8, 0), "graph", 6, 1)?;
    refused(&with(21, 65), "graph", 7, 2)?;
    refused(&with(29, 16), "graph", 8, 2)?;
    refused(&with(34, 2), "graph", 9, 3)?;
    refused(&with(36, 0), "graph", 10, 3)?;
    refused(&with(35, 0), "graph", 11, 1)
}

// Rates beyond all counts: a channel of an actor to itself at 1:2, and a chain of 255:1 twice.
#[test]
fn no_counts(rt: HostRuntime) -> Result<(), Fail> {
    let mut own = [0; 29];
    own[0..18].copy_from_slice(&[1, 0, 2, 1, 1, 2, 0, 10, 65, 0, 0, 0, 0, 0, 0, 0, 0, 1]);
    own[18..29].copy_from_slice(&[3, 0, 8, 0, 0, 1, 2, 0, 4, 0, 0]);
    refused(&own, "graph", 12, 0)?;
    let mut chain = [0; 66];
    chain[0..31].copy_from_slice(&PAIR[0..31]);
    chain[3] = 3;
    chain[4] = 2;
    chain[31..44].copy_from_slice(&[2, 0, 10, 67, 0, 0, 0, 0, 0, 0, 0, 0, 1]);
    chain[44..55].copy_from_slice(&[3, 0, 8, 0, 1, 255, 1, 16, 0, 0, 0]);
    chain[55..66].copy_from_slice(&[3, 0, 8, 1, 2, 255, 1, 16, 0, 0, 0]);
    refused(&chain, "graph", 12, 0)
}

// A capacity of 4096 is taken, one of 4097 is not.
#[test]
fn largest_capacity(rt: HostRuntime) -> Result<(), Fail> {
    let mut file = with(38, 16);
    file[39] = 0;
    assert!(rt; Graph::read(&file).is_ok());
    file[39] = 1;
    refused(&file, "graph", 10, 3)
}
