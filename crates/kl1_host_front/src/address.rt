// The numbers of addresses for pauses.

ghost use Rattle.std.specs.Prelude.{◌≡◌, ◌≤◌};
ghost use Rattle.std.specs.declared.net.ip_addr.IpAddr.{IpAddr};
ghost use Rattle.kl1_host_front.specs.declared.address.TheConstants.{FIRST_ADDRESS};
ghost use Rattle.kl1_host_front.specs.Addresses.{IsCanonical, number_in};

use std::net::IpAddr;

/// The least number of an address: those of accounts are below it.
const FIRST_ADDRESS: u128 = 1 << 64;

/// The least number of an address of version 6.
const FIRST_LONG_ADDRESS: u128 = 1 << 65;

/// How many addresses of version 6 have one number: those with the same first 64 bits.
const ADDRESSES_OF_A_NETWORK: u128 = 1 << 64;

/// The number of an address, which is no account's. Addresses of version 6 of one network, so with the same first 64 bits, have one number,
/// since who has one of them has all.
pub fn address_number(address: IpAddr) -> u128
    ensures above { FIRST_ADDRESS ≤ result }
    ensures value { (canonical : IpAddr) × IsCanonical address canonical × (result ≡ number_in canonical) }
{
    match address.to_canonical() {
        IpAddr::V4(short) => FIRST_ADDRESS + u128::from(short.to_bits()),
        IpAddr::V6(long) => FIRST_LONG_ADDRESS + long.to_bits() / ADDRESSES_OF_A_NETWORK,
    }
}
