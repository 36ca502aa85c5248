// Calls on jobs, rules, ticks and cells at the edges of their limits, and what each is answered.
#![tactic(auto)]

mod calls;
mod limits;
mod report;

use calls::{check_calls, check_openings};
use limits::{check_limits, check_texts};
use report::Report;
use std::io;

fn main(rt: HostRuntime) -> io::Result<()> {
    let mut report = Report {
        rt: &rt,
        cases: 0,
        wrong: 0,
    };
    check_openings(&mut report)?;
    check_calls(&mut report)?;
    check_texts(&mut report)?;
    check_limits(&mut report)?;
    let cases = report.cases;
    let wrong = report.wrong;
    println!(rt; "{cases} cases, {wrong} wrong")
}
