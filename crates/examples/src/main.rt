//! Examples, a module each: a tour of the store, the scopes and the text of a body; what the names of a body
//! resolve to, with the paths that resolve to nothing, the bindings that no path resolves to, and what
//! closures capture; and nodes and signatures that helpers make.
#![tactic(auto)]

mod assigned;
mod bodies;
mod captures;
mod made;
mod tour;
mod unresolved;
mod unused;

fn main(rt: HostRuntime) -> anyhow::Result<()> {
    println!(rt; "a tour:")?;
    tour::print(&rt, rt.alloc())?;
    println!(rt; "unresolved:")?;
    unresolved::print(&rt, rt.alloc())?;
    println!(rt; "unused:")?;
    unused::print(&rt, rt.alloc())?;
    println!(rt; "captures:")?;
    captures::print(&rt, rt.alloc())?;
    println!(rt; "made by helpers:")?;
    made::print(&rt, rt.alloc())
}
