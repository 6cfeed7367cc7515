// `census` (docs/RULES.md, 'The census of heights'): a and b on the first line of standard input to their table of
// heights on standard output. What is printed is made by the proved library `census_lines`; here it is read and
// written. Where a read or a write fails, one line on standard error says so, and the run ends. No contract can say
// what a read gave or a write wrote. What is said is what is handed over: `write_reply` alone writes to standard
// output, and takes nothing but all that is printed for the input beside it.

#![tactic(auto)]

ghost use Rattle.std.specs.Prelude.{◌≡◌, MatchResult};
ghost use Rattle.io.specs.Counts.{IsPrefixLen};
ghost use Rattle.census_lines.specs.Printed.{printed};

use census_lines::MOST;
use std::io::Write;
use streams::ReadFailed;

// Reads until there is a newline, or the input ends, or the buffer is full: no more is looked at. A terminal hands over
// a line of at most 4,096 bytes, so all of it is read, and none is left for the shell.
fn read_first_line(rt: &HostRuntime, input: &mut [u8]) -> Result<usize, ReadFailed>
    ensures { MatchResult result (λ n. IsPrefixLen n input.new) (λ e. IsPrefixLen e.after input.new) }
{
    // Stays a while: how far a turn comes is what the read gave.
    let mut at = 0;
    while at < input.len() {
        let n = streams::read_more(&mut rt.stdin(), input, at)?;
        if n == 0 {
            break;
        }
        at += n;
        if census_lines::has_newline(&input[..at]) {
            break;
        }
    }
    Ok(at)
}

// Hands a text to a write: all that is printed for an input, which is there for the contract alone.
fn write_reply(rt: &HostRuntime, input: &[u8], text: &[u8])
    requires { text.now ≡ printed input.now }
{
    if Write::write_all(&mut rt.stdout(), text).is_err() {
        streams::say(
            rt,
            b"census: writing failed, of",
            text.len() as u64,
            b" bytes not all are written\n",
        );
    }
}

fn answer(rt: &HostRuntime, input: &[u8]) {
    let mut out = [0u8; MOST];
    let made = census_lines::answer_input(input, &mut out);
    write_reply(rt, input, &out[..made]);
}

fn main(rt: HostRuntime) {
    let mut input = [0u8; 4096];
    match read_first_line(&rt, &mut input) {
        Ok(n) => answer(&rt, &input[..n]),
        Err(failed) => streams::say(
            &rt,
            b"census: reading failed after",
            failed.after as u64,
            b" bytes, nothing is written\n",
        ),
    }
}
