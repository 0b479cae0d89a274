// The lister: k and a policy a line from standard input; for each policy its handle or why it is declined.
#![tactic(auto)]

use std::io;

fn main(rt: HostRuntime) -> io::Result<()> {
    let mut input = rt.stdin();
    let mut output = rt.stdout();
    listing::list_file(&mut input, &mut output)
}
