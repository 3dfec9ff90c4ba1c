// The program: one task followed from beginning to end. A controller queues its fault records, a station takes them into
// its archive, and the queue releases them. The last record goes as a packet, which arrives damaged, whole and twice.
// The same code runs over both kinds of store, in both roles.
#![tactic(auto)]

use answer::Refusal;
use memory::journal::Journal;
use memory::slots::SlotStore;
use records::task;
use std::io;

mod packets;
mod records;

fn tell_refusal(rt: &HostRuntime, refusal: Refusal) -> io::Result<()> {
    let number = refusal.number();
    println!(rt; "refused {number}: {refusal}")
}

fn run(rt: &HostRuntime) -> anyhow::Result<()> {
    println!(rt; "A queue of slots (room for 3 records), a station with a journal (room for 4):")?;
    task::<SlotStore, Journal>(rt)?;
    println!(rt; "A queue with a journal (room for 3 records), a station of slots (room for 4):")?;
    task::<Journal, SlotStore>(rt)
}

fn main(rt: HostRuntime) -> anyhow::Result<()> {
    run(&rt)
}
