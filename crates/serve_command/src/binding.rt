// The endpoints of a bus.

use crate::error::Refusal;
use crate::listening::bind;
use crate::mechanisms::mechanisms_of;
use crate::options::Options;
use crate::target::Target;
use endpoints::Address;
use server::Endpoint;
use std::alloc::Global;
use std::fs::{File, Files};
use std::net::{Net, TcpListener, TcpStream};
use std::random::RandomSource;
use std::rt::Env;
use std::sync::Wait;
use std::time::Clock;

/// Adds an endpoint for each address. After an error those that were opened before it are there.
pub(crate) fn bind_all<R>(
    rt: &R,
    alloc: Global,
    options: Options<'_>,
    targets: &[Target<'_>],
    endpoints: &mut Vec<Endpoint>,
) -> Result<(), Refusal>
where
    R: Files<File = File>
        + Env
        + Net<Listener = TcpListener, Stream = TcpStream>
        + Wait
        + Clock
        + RandomSource
        + Alloc,
{
    for target in targets {
        let endpoint = open(rt, alloc, options, target.address())?;
        if let Err(refused) = endpoints.push(endpoint) {
            refused.value.listener.close(rt);
            return Err(Refusal::memory());
        }
    }
    Ok(())
}

fn open<R>(
    rt: &R,
    alloc: Global,
    options: Options<'_>,
    address: Address<'_>,
) -> Result<Endpoint, Refusal>
where
    R: Files<File = File>
        + Env
        + Net<Listener = TcpListener, Stream = TcpStream>
        + Wait
        + Clock
        + RandomSource
        + Alloc,
{
    let listener = bind(rt, alloc, address)?;
    match mechanisms_of(rt, alloc, options, &listener) {
        Ok(mechanisms) => Ok(Endpoint {
            listener,
            mechanisms,
        }),
        Err(refusal) => {
            listener.close(rt);
            Err(refusal)
        }
    }
}

/// The number of the user that each client runs as, but for root: where each endpoint is one that this process's user
/// alone reaches.
pub(crate) fn only_user<R: Files>(rt: &R, endpoints: &[Endpoint]) -> Option<u32> {
    let mut found = None;
    for endpoint in endpoints {
        found = Some(endpoint.listener.only_user(rt)?);
    }
    found
}
