// Reads packets from a file, and holds what is read of each to what the file tells of it.
#![tactic(auto)]

mod answer;
mod hex;
mod judging;
mod row;

use answer::ANSWER;
use judging::judge_row;
use std::io::Write;
use std::{fs, io};
use text::Rows;

// Prints the answer for each row, and last how many are as told.
fn main(rt: HostRuntime) -> io::Result<()> {
    let file = fs::read(&rt, "packets.txt")?;
    let mut agreed = 0usize;
    let mut judged = 0usize;
    for row in Rows::new(file.as_slice()) {
        if row.is_passed_over() {
            continue;
        }
        let mut line = [0u8; ANSWER];
        judged = judged.saturating_add(1);
        match judge_row(row.bytes, &mut line) {
            Some(verdict) => {
                rt.stdout().write_all(&line[..verdict.end])?;
                if verdict.agrees {
                    agreed = agreed.saturating_add(1);
                    println!(rt; ",agrees")?;
                } else {
                    println!(rt; ",differs")?;
                }
            }
            None => println!(rt; "malformed")?,
        }
    }
    println!(rt; "agree,{agreed},of,{judged}")
}
