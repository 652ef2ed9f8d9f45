// `list counts` or `list answers`: reads a script from standard input and prints its listing.
#![tactic(auto)]

use listing::kinds::ScriptKind;
use script::field::enough_bytes;
use std::env;
use std::io::Read;

const USAGE: &str = "call it as 'list counts' or 'list answers', with the script on standard input";

fn run(rt: &HostRuntime) -> anyhow::Result<()> {
    let heap = rt.alloc();
    let asked = env::args(rt)?.nth(1);
    let Some(Ok(kind)) = asked.map(|name| name.as_str().parse::<ScriptKind>()) else {
        rt.println(USAGE)?;
        return Ok(());
    };
    let mut script = Vec::new(heap);
    rt.stdin().take(enough_bytes()).read_to_end(&mut script)?;
    let text = kind.list(heap, script.as_slice())?;
    rt.print(text.as_str())?;
    Ok(())
}

fn main(rt: HostRuntime) -> anyhow::Result<()> {
    run(&rt)
}
