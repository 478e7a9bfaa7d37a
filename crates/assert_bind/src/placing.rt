//! The addresses of places.
ghost use Rattle.std.specs.Prelude.{◌≡◌, true, MatchResult, IfOk, All};
ghost use Rattle.assert_bind.specs.Address.{behind, address_of, bound_place, bound_places};
ghost use Rattle.assert_bind.specs.Body.{IsCode, IsRefusalOf};

use crate::{Addresses, BindRefusal};
use assert_lang::Spot;
use bt_image::Image;
use std::alloc::Global;

/// So many bytes behind an address, modulo 2^32.
fn behind(offset: u32, entry: u32) -> u32
    ensures { result ≡ behind offset entry }
{
    entry.wrapping_add(offset)
}

/// The address of a place.
fn address_of(image: &Image, spot: &Spot) -> Option<u32>
    ensures { result ≡ address_of image.now spot.now }
{
    match spot {
        Spot::Name(name) => image.entry_of(name.as_slice()),
        Spot::Offset(name, offset) => match image.entry_of(name.as_slice()) {
            None => None,
            Some(entry) => Some(behind(*offset, entry)),
        },
        Spot::Addr(address) => Some(*address),
    }
}

/// The address of a place in a line, where it is one of code.
pub fn bound_place(image: &Image, line: u32, spot: &Spot) -> Result<u32, BindRefusal>
    ensures value { result ≡ bound_place image.now line spot.now }
    ensures code { IfOk result (IsCode image.now) }
{
    match address_of(image, spot) {
        None => Err(BindRefusal::NoName { line }),
        Some(address) => if image.code(address) {
            Ok(address)
        } else {
            Err(BindRefusal::NotCode {
                line,
                addr: address,
            })
        },
    }
}

/// The addresses of places in a line, where they are ones of code.
pub fn bound_places(
    alloc: Global,
    image: &Image,
    line: u32,
    spots: &[Spot],
) -> Result<Addresses, BindRefusal>
    ensures value { MatchResult result (λ to. bound_places image.now line spots.now ≡ Ok to) (IsRefusalOf (bound_places image.now line spots.now)) }
    ensures code { IfOk result (All (IsCode image.now)) }
{
    let mut addresses = Vec::new(alloc);
    for spot in spots {
        let address = bound_place(image, line, spot)?;
        addresses.push(address)?;
    }
    Ok(Addresses::new(addresses))
}
