// Prints the paper's table: each period code with its name, its ticks and its hold time.
// Codes 0 and 8 show that others have none. Any argument gets a usage line on standard error, and nothing is printed.
// Where standard output takes no more, that error ends the program.
#![tactic(auto)]

use std::env::FillError;
use std::io;
use std::rt::Env;

// The period's name in ten columns.
fn print_name(rt: &impl Print, code: u32) -> io::Result<()> {
    let name = match code {
        1 => "3.33 ms",
        2 => "10 ms",
        3 => "100 ms",
        4 => "1 s",
        5 => "10 s",
        6 => "1 min",
        7 => "10 min",
        _ => "none",
    };
    print!(rt; "{name:>10}")
}

// A number in ten columns, right against the edge; more digits than that are written whole.
fn print_number(rt: &impl Print, n: u32) -> io::Result<()> {
    print!(rt; "{n:>10}")
}

fn print_row(rt: &impl Print, code: u32) -> io::Result<()> {
    print_number(rt, code)?;
    print_name(rt, code)?;
    print_number(rt, base_period::ticks_of(code))?;
    print_number(rt, base_period::hold_of(code))?;
    println!(rt)
}

// Whether the program was given an argument. It may be any octets, so it is not read as text.
// The same text in each program: a library function needs a contract that leaves one result, and none can say what an argument is.
fn has_argument(rt: &impl Env) -> bool {
    !matches!(rt.arg(1, &mut [0u8; 1]), Err(FillError::NotPresent))
}

fn main(rt: HostRuntime) -> io::Result<()> {
    if has_argument(&rt) {
        return eprintln!(rt;
            "usage: periods    (no arguments and no input; the table of periods out)"
        );
    }
    println!(rt; "      code    period     ticks hold time")?;
    for code in 0..9 {
        print_row(&rt, code)?;
    }
    Ok(())
}
