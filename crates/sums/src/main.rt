// Runs sums of document 01 ("Sums to check by hand"), and document 02's table of lengths and broken messages, through the code and prints what comes of them.
#![tactic(auto)]

use base::Refusal;
use message::{Body, Message};
use plan::Plan;
use std::io;

// The refusal's number and place, or 0.
fn verdict(rt: &impl Print, read: Result<Plan, Refusal>) -> io::Result<()> {
    match read {
        Ok(_) => println!(rt; "0 "),
        Err(refusal) => println!(rt; "{} {} ", refusal.question.number(), refusal.place),
    }
}

// The first bytes of a buffer.
fn bytes(rt: &impl Print, buffer: [u8; 8]) -> io::Result<()> {
    for b in &buffer[..4] {
        print!(rt; "{b} ")?;
    }
    println!(rt)
}

// Three writers of three types of value: one function of them would take a closure, and a `requires` that it may be called, which is no plainer.
fn varint_of(v: u32) -> [u8; 8] {
    let mut buffer = [0; 8];
    let _ = varint::write(&mut buffer, 0, v);
    buffer
}

fn signed_of(z: i32) -> [u8; 8] {
    let mut buffer = [0; 8];
    let _ = signed::write(&mut buffer, 0, z);
    buffer
}

fn message_of(m: Message) -> [u8; 8] {
    let mut buffer = [0; 8];
    let _ = message::write(&mut buffer, m);
    buffer
}

// A number, how many bytes its varint has, and how many the writer wrote.
fn length_of(rt: &impl Print, v: u32) -> io::Result<()> {
    let mut buffer = [0; 8];
    let written = varint::write(&mut buffer, 0, v).unwrap_or(0);
    print!(rt; "{v} {} {written} ", varint::size(v))
}

// The table of lengths: each case by its first number and its last.
fn table(rt: &impl Print) -> io::Result<()> {
    for (first, last) in [
        (0, 127),
        (128, 16383),
        (16384, 2097151),
        (2097152, 268435455),
        (268435456, 4294967295),
    ] {
        length_of(rt, first)?;
        length_of(rt, last)?;
        println!(rt)?;
    }
    Ok(())
}

// What is told of bytes that should be one message: the refusal's number and place, or 0.
fn told(rt: &impl Print, bytes: &[u8]) -> io::Result<()> {
    match message::read(bytes) {
        Ok(_) => println!(rt; "0 "),
        Err(failure) => {
            println!(rt;
                "{} {} ",
                message::refusal_number(failure.fault),
                failure.at
            )
        }
    }
}

// A side's message, cut, with each group wrong, and with a byte behind it: README, "For the wire tester".
fn tellings(rt: &impl Print) -> io::Result<()> {
    told(rt, &[172, 2, 3, 5, 2])?;
    told(rt, &[])?;
    told(rt, &[172, 2, 3])?;
    told(rt, &[172, 2, 142])?;
    told(rt, &[172, 130, 0, 3, 5, 2])?;
    told(rt, &[172, 2, 131, 0, 5, 2])?;
    told(rt, &[172, 2, 128, 128, 128, 128, 128])?;
    told(rt, &[172, 2, 15, 5, 2])?;
    told(rt, &[172, 2, 3, 7, 2])?;
    told(rt, &[172, 2, 3, 5, 16])?;
    told(rt, &[172, 2, 3, 5, 16, 0])?;
    told(rt, &[172, 2, 3, 5, 2, 0])
}

// The bytes of a signed number and of a message.
fn sent(rt: &impl Print) -> io::Result<()> {
    bytes(rt, signed_of(-5))?;
    bytes(
        rt,
        message_of(Message {
            number: 7,
            level: 2,
            body: Body::SecondEcho(16),
        }),
    )
}

// A plan, and its settings: good ones, and ones that are refused.
fn settings(rt: &impl Print) -> io::Result<()> {
    verdict(rt, plan_reader::read(&[2, 9, 8]))?;
    for (n, t, own) in [(3, 1, 0), (16, 5, 15), (16, 6, 0), (17, 5, 0), (4, 1, 4)] {
        verdict(rt, plan_reader::settle(n, t, own, &[2, 9, 8]))?;
    }
    Ok(())
}

// Plans of ranges and of trees.
fn plans(rt: &impl Print) -> io::Result<()> {
    verdict(rt, plan_reader::read(&[2, 0, 255, 255, 3]))?;
    verdict(rt, plan_reader::read(&[2, 0, 128, 128, 4]))?;
    verdict(rt, plan_reader::read(&[1, 3, 0, 1, 1, 2]))?;
    verdict(rt, plan_reader::read(&[1, 3, 0, 1, 1, 0]))?;
    verdict(rt, plan_reader::read(&[1, 3, 0, 1, 1, 3]))?;
    verdict(rt, plan_reader::read(&[1, 128, 2]))?;
    verdict(rt, plan_reader::read(&[3]))?;
    verdict(rt, plan_reader::read(&[1, 1, 0]))
}

fn main(rt: HostRuntime) -> io::Result<()> {
    bytes(&rt, varint_of(300))?;
    verdict(&rt, plan_reader::read(&[128, 0]))?;
    sent(&rt)?;
    settings(&rt)?;
    plans(&rt)?;
    table(&rt)?;
    tellings(&rt)
}
