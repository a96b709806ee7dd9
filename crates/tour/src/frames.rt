//! `mb_mbap`: the frames of a stream, however it is cut.
use anyhow::Result;
use mb_mbap::FrameReader;

/// Two frames, cut in the middle of the first one's header.
const PIECES: [&[u8]; 2] = [
    &[0x00, 0x01, 0x00],
    &[
        0x00, 0x00, 0x05, 0x11, 0x03, 0x02, 0x02, 0x2B, 0x00, 0x02, 0x00, 0x00, 0x00, 0x03, 0x11,
        0x83, 0x02,
    ],
];

pub(crate) fn show(rt: &HostRuntime) -> Result<()> {
    let mut reader = FrameReader::new(rt.alloc());
    for piece in PIECES {
        let fed = reader.feed(piece)?;
        for frame in &fed.frames {
            let length = frame.unit.as_bytes().len();
            println!(rt;
                "transaction {} from unit identifier {}: {length} bytes",
                frame.transaction, frame.unit_id
            )?;
        }
    }
    // A protocol identifier that isn't Modbus's ends the stream for good.
    let fed = reader.feed(&[0x00, 0x03, 0x00, 0x01, 0x00, 0x06])?;
    println!(rt; "then {:?}", fed.fault)?;
    Ok(())
}
