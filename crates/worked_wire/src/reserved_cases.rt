// Reserved numbers at the end of the packet (document 02, C-18), in answer to the whole case with 1,200 bytes.
use crate::packet_cases::padded_case;
use crate::show::wrote;
use negotiation::write_version_negotiation;
use std::io;

pub(crate) fn all(rt: &impl Print) -> io::Result<()> {
    written(rt)?;
    refused(rt)?;
    received_version(rt)
}

// The buffer has two bytes more than the packet. They keep their values.
fn written(rt: &impl Print) -> io::Result<()> {
    let datagram = padded_case();
    let mut buffer = [0xeeu8; 32];
    wrote(
        rt,
        "packet that ends with 0x1a2a3a4a, 0x0a0a0a0a: ",
        write_version_negotiation(
            &datagram,
            &[14, 13, 10],
            &[0x1a2a3a4a, 0x0a0a0a0a],
            64,
            &mut buffer,
        ),
        &buffer,
    )
}

fn refused(rt: &impl Print) -> io::Result<()> {
    let datagram = padded_case();
    let mut short = [0xeeu8; 5];
    wrote(
        rt,
        "packet with five reserved numbers for a buffer of 5: ",
        write_version_negotiation(
            &datagram,
            &[14, 13, 10],
            &[0x1a2a3a4a, 0x0a0a0a0a, 0xfafafafa, 0x5a6a7a8a, 0x2a2a2a2a],
            64,
            &mut short,
        ),
        &short,
    )?;
    let mut buffer = [0xeeu8; 42];
    wrote(
        rt,
        "packet with five reserved numbers: ",
        write_version_negotiation(
            &datagram,
            &[14, 13, 10],
            &[0x1a2a3a4a, 0x0a0a0a0a, 0xfafafafa, 0x5a6a7a8a, 0x2a2a2a2a],
            64,
            &mut buffer,
        ),
        &buffer,
    )?;
    wrote(
        rt,
        "packet with 0x0a0a0a0b, which is not reserved: ",
        write_version_negotiation(&datagram, &[14, 13, 10], &[0x0a0a0a0b], 64, &mut buffer),
        &buffer,
    )?;
    wrote(
        rt,
        "packet with 0x0a0a0a0a twice: ",
        write_version_negotiation(
            &datagram,
            &[14, 13, 10],
            &[0x0a0a0a0a, 0x0a0a0a0a],
            64,
            &mut buffer,
        ),
        &buffer,
    )
}

// The received version is 0x0a0a0a0a. No table holds it, so it is never a 24.
fn received_version(rt: &impl Print) -> io::Result<()> {
    let mut datagram = padded_case();
    datagram[1..5].fill(0x0a);
    let mut buffer = [0xeeu8; 28];
    wrote(
        rt,
        "packet for version 0x0a0a0a0a that ends with it: ",
        write_version_negotiation(&datagram, &[14, 13, 10], &[0x0a0a0a0a], 64, &mut buffer),
        &buffer,
    )?;
    wrote(
        rt,
        "packet for version 0x0a0a0a0a that ends with 0x1a2a3a4a: ",
        write_version_negotiation(&datagram, &[14, 13, 10], &[0x1a2a3a4a], 64, &mut buffer),
        &buffer,
    )
}
