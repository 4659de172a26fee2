//! Prints what small streams of one lift mean: each trend, and what all come to by the four kinds.
#![tactic(auto)]

mod samples;
mod show;

use samples::SAMPLES;
use show::show;

fn run(rt: &HostRuntime) -> anyhow::Result<()> {
    for sample in SAMPLES {
        rt.print(show(rt.alloc(), sample)?)?;
    }
    Ok(())
}

fn main(rt: HostRuntime) -> anyhow::Result<()> {
    run(&rt)
}

#[cfg(test)]
mod tests {
    use semantics::refusal::CallRefusal;
    use std::test::Fail;

    // That printing succeeds, which no clause says.
    #[test]
    fn a_refused_call_is_printed(rt: HostRuntime) -> Result<(), Fail> {
        let refusal = CallRefusal::Late.to_string(rt.alloc())?;
        assert_eq!(rt;
            refusal.as_str(),
            "the first open window has ended by this time"
        );
        Ok(())
    }
}
