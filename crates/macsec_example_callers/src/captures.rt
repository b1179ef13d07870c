//! Reads capture files, and runs an endpoint over one, all in memory.

use macsec_capture::{CaptureFault, Direction, run_capture, run_config, run_records};
use macsec_commands::EndConfig;
use macsec_pcap::{PcapFault, PcapReader, PcapWriter};
use macsec_pcapng::CaptureReader;
use macsec_script_parser::ScriptFault;
use macsec_secy::Secy;
use std::alloc::Global;

/// How many of the first `most` records a pcap file has. Fails with the fault of the file that comes before that.
pub fn count_pcap_records(alloc: Global, file: &[u8], most: u32) -> Result<u32, PcapFault> {
    let mut reader = PcapReader::new(alloc, file)?;
    for count in 0..most {
        if reader.next()?.is_none() {
            return Ok(count);
        }
    }
    Ok(most)
}

/// How many of the first `most` records a file in pcap or pcapng has. Fails with the fault of the file that comes before
/// that.
pub fn count_records(alloc: Global, file: &[u8], most: u32) -> Result<u32, PcapFault> {
    let mut reader = CaptureReader::new(alloc, file)?;
    for count in 0..most {
        if reader.next()?.is_none() {
            return Ok(count);
        }
    }
    Ok(most)
}

/// The pcap file of what the endpoint of a configuration sends for the frames of a capture file.
pub fn protected_capture(
    alloc: Global,
    config: &[u8],
    file: &[u8],
) -> Result<Vec<u8>, CaptureFault> {
    let (mut config, mut input) = (config, file);
    let (mut output, mut text) = (Vec::new(alloc), Vec::new(alloc));
    run_capture(
        alloc,
        false,
        Direction::Protect,
        &mut config,
        &mut input,
        &mut output,
        &mut text,
    )?;
    Ok(output)
}

/// The text of what the endpoint of a configuration delivers of the frames of a capture file.
pub fn text_of_capture(alloc: Global, config: &[u8], file: &[u8]) -> Result<Vec<u8>, CaptureFault> {
    let mut input = file;
    let (mut output, mut text) = (Vec::new(alloc), Vec::new(alloc));
    run_config(
        alloc,
        false,
        Direction::Validate,
        config,
        &mut input,
        &mut output,
        &mut text,
    )?;
    Ok(text)
}

/// The text of what a new endpoint, which has no keys, does with the frames of a capture file. Fails with
/// `Script(Memory)` if the endpoint can't be created.
pub fn text_without_keys(
    alloc: Global,
    config: EndConfig,
    file: &[u8],
) -> Result<Vec<u8>, CaptureFault> {
    let Ok(mut endpoint) = Secy::new(alloc, config) else {
        return Err(CaptureFault::Script(ScriptFault::Memory));
    };
    let mut reader = CaptureReader::new(alloc, file)?;
    let (mut output, mut text) = (Vec::new(alloc), Vec::new(alloc));
    let mut writer = PcapWriter::new(&mut output, reader.resolution())?;
    run_records(
        Direction::Protect,
        &mut endpoint,
        &mut reader,
        &mut writer,
        &mut text,
    )?;
    Ok(text)
}
