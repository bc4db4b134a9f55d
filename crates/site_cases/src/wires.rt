//! An exchange of two sites over sockets of this process.

ghost use Rattle.outside_io.specs.Ends.{IsUnlinked};

use crate::edits::{Edit, does_all};
use cot_site::Site;
use op_name::Memory;
use outside_io::{TcpWire, Wire};
use site_node::loop_run;
use std::alloc::Global;

/// Whether each site sends one frame over the wire, and shows two characters then.
fn meet<W: Wire>(alloc: Global, server: &mut Site, joiner: &mut Site, wire: &mut W) -> bool
    requires { IsUnlinked (W.ends wire.old) }
{
    match loop_run(alloc, server, joiner, wire) {
        Ok((sent, back)) => {
            sent == 1 && back == 1 && server.visible_len() == 2 && joiner.visible_len() == 2
        }
        Err(_) => false,
    }
}

/// The same of a joiner that has an insert.
fn joins<W: Wire>(alloc: Global, server: &mut Site, wire: &mut W) -> Result<bool, Memory>
    requires { IsUnlinked (W.ends wire.old) }
{
    let mut joiner = Site::new(alloc, 1)?;
    Ok(does_all(&mut joiner, &[Edit::Insert(0, 'p')]) && meet(alloc, server, &mut joiner, wire))
}

/// The same of a server that has an insert too.
fn exchange_over<W: Wire>(alloc: Global, wire: &mut W) -> Result<bool, Memory>
    requires { IsUnlinked (W.ends wire.old) }
{
    let mut server = Site::new(alloc, 0)?;
    if does_all(&mut server, &[Edit::Insert(0, 'a')]) {
        joins(alloc, &mut server, wire)
    } else {
        Ok(false)
    }
}

#[test]
fn two_sites_exchange_over_sockets(rt: HostRuntime) -> Result<(), Memory> {
    let mut wire = TcpWire::new(&rt);
    let met = exchange_over(rt.alloc(), &mut wire)?;
    assert!(rt; met);
    Ok(())
}
