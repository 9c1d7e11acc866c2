//! What is wrong with parts that make no partial path.
use partial_path::{End, PartialPath, PathFault, Spot, Start};
use stacks_vars::{Held, Listed, Post, Pre, ScopeOut, ScopePat, SymPat, Symbol, Tail};
use std::alloc::Global;
use std::test::Fail;

/// The precondition that asks for the symbol `x` so many times, each with attached scopes.
fn asking(alloc: Global, times: u32) -> Result<Pre, Fail> {
    let mut symbols = Listed::new(alloc);
    for _ in 0..times {
        symbols.push(SymPat {
            symbol: Symbol::of(alloc, b"x")?,
            scopes: Some(Held::of(alloc, any_scopes(alloc))?),
        })?;
    }
    Ok(Pre {
        symbols,
        scopes: any_scopes(alloc),
    })
}

fn any_scopes(alloc: Global) -> ScopePat {
    ScopePat {
        fixed: Listed::new(alloc),
    }
}

/// The postcondition whose scope stack is what was attached to the precondition's first symbol.
fn first_scopes(alloc: Global) -> Post {
    Post {
        symbols: Listed::new(alloc),
        scopes: ScopeOut {
            scopes: Listed::new(alloc),
            tail: Tail::Item(0),
        },
    }
}

/// What is wrong with the path of that postcondition that asks for so many symbols and has this peak.
fn fault_of(alloc: Global, symbols: u32, peak: u32) -> Result<Option<PathFault>, Fail> {
    let checked = PartialPath::check(
        Start::After(Spot::Root),
        End::At(Spot::Root),
        asking(alloc, symbols)?,
        first_scopes(alloc),
        peak,
        Vec::new(alloc),
    );
    match checked {
        Ok(_) => Ok(None),
        Err(fault) => Ok(Some(fault)),
    }
}

#[test]
fn a_path_names_scopes_that_it_asks_for_and_reaches_its_peak(rt: HostRuntime) -> Result<(), Fail> {
    // How many symbols are asked for, the peak, and the fault.
    let rows = [
        (0, 0, Some(PathFault::BadTail(0))),
        (1, 0, Some(PathFault::PeakLow)),
        (1, 1, None),
        (2, 1, Some(PathFault::PeakLow)),
        (2, 2, None),
    ];
    for (symbols, peak, wanted) in rows {
        let fault = fault_of(rt.alloc(), symbols, peak)?;
        assert_eq!(rt; fault, wanted, "{symbols} symbols and peak {peak}");
    }
    Ok(())
}
