// A source without an end.
ghost use Rattle.std.specs.Prelude.{◌≡◌, ℕ, None, refl};

use auth_cli::run;
use cli_stage::stage::{disk, net, sink};
use lam_outside::{Failed, Files, Load, Source, load_all};
use std::test::Fail;

/// Files of blanks without an end, which tell nothing.
#[derive(Drop)]
struct Endless {
    faults: u64,
    store_faults: u64,
}

impl Endless {
    fn new() -> Self
        ensures reads { result.faults ≡ 0 }
        ensures stores { result.store_faults ≡ 0 }
    {
        Endless {
            faults: 0,
            store_faults: 0,
        }
    }
}

impl Source for Endless {
    ghost given = { λ _. None };

    ghost left = { λ _. None };

    ghost sent = { λ _. None };

    ghost reads = { λ _. None };

    ghost faults = { λ files. files.faults };

    ghost Rest = { ℕ };

    ghost rest = { λ files. files.store_faults };

    fn read(&mut self, into: &mut [u8]) -> Result<usize, Failed> {
        into.fill(b' ');
        Ok(into.len())
    }
}

impl Files for Endless {
    ghost contents = { λ _. None };

    ghost stores = { λ _. None };

    ghost store_faults = { λ files. files.store_faults };

    ghost rest_has_contents = { λ old new same. refl };

    ghost rest_has_stores = { λ old new same. refl };

    ghost rest_has_store_faults = { λ old new same. same };

    ghost asked = { λ _. None };

    ghost rest_has_asked = { λ old new same. refl };

    fn start(&mut self, _name: &str) -> Result<(), Failed> {
        Ok(())
    }

    fn store(&mut self, _name: &str, _bytes: &[u8]) -> Result<(), Failed> {
        Ok(())
    }
}

#[test]
fn an_endless_file_is_too_long(rt: HostRuntime) -> Result<(), Fail> {
    for max in [0, 1, 4096, 10_000] {
        let loaded = load_all(rt.alloc(), &mut Endless::new(), "p", max);
        if !matches!(loaded, Err(Load::TooLong)) {
            return Err(Fail::new(format_args!("{max}")));
        }
    }
    Ok(())
}

#[test]
fn an_endless_program_is_too_long(rt: HostRuntime) -> Result<(), Fail> {
    let alloc = rt.alloc();
    let mut out = sink(alloc, 100, &[])?;
    let mut net = net(alloc, &[], 1, &[])?;
    let mut disk = disk(alloc, None, &[])?;
    let words = ["lamauth", "verify", "p", "open", "s", "()", "1", "q"];
    let mut files = Endless::new();
    assert!(rt;
        run(
            &rt, alloc, &words, &mut files, &mut out, &mut net, &mut disk
        ) == 7
    );
    assert!(rt; out.bytes() == b"input refused: too long P\n".as_slice());
    Ok(())
}
