#![tactic(auto)]

// Reads board.bin and rows.bin from the folder it is started in, and prints the frames of that run up to the first bad one.
use programs::{read_board, read_or_empty, tell_refusal};
use runs::Trace;
use runs::text::{tell_board, tell_frame};
use runs::tracing::trace;

fn show(rt: &HostRuntime, trace: &Trace) -> anyhow::Result<()> {
    for index in 0..trace.frames.len() {
        if let Some(frame) = trace.frames.row(index) {
            rt.println(tell_frame(rt.alloc(), index + 1, frame)?)?;
        }
    }
    rt.println(trace.verdict)?;
    Ok(())
}

fn run(rt: &HostRuntime) -> anyhow::Result<()> {
    let heap = rt.alloc();
    let file = read_or_empty(rt, "board.bin")?;
    let board = read_board(rt, file.as_slice())?;
    rt.println(tell_board(heap, &board)?)?;
    let rows = read_or_empty(rt, "rows.bin")?;
    let trace = tell_refusal(rt, trace(heap, &board, rows.as_slice()))?;
    show(rt, &trace)
}

fn main(rt: HostRuntime) -> anyhow::Result<()> {
    run(&rt)
}
