// The report on all block devices, if `scan` is given no image.
use md_cli::{ScanOptions, scan};
use md_images::Images;
use md_messages::put_fault_line;
use md_outputs::{DEVICE_LIST, device_paths};
use md_refusals::CommandFault;
use md_streams::{Messages, Sink};
use std::alloc::{AllocError, Global};
use std::io::Write;

/// Shows of which arrays the block devices are members. The status is that of `scan`, or 1 where they are not told.
pub fn scan_all<I: Images, S: Sink, E: Write + Sink>(
    rt: &HostRuntime,
    json: bool,
    messages: Messages,
    images: &mut I,
    out: &mut S,
    err: &mut E,
) -> u8 {
    let paths = match device_paths(rt) {
        Ok(paths) => paths,
        Err(error) => {
            let _ = writeln!(err, "mdcli: {DEVICE_LIST}: {error}");
            return 1;
        }
    };
    let Ok(names) = name_list(rt.alloc(), &paths) else {
        let _ = put_fault_line(err, &CommandFault::NoMemory);
        return 1;
    };
    let how = ScanOptions {
        json,
        is_named: false,
        messages,
    };
    scan(rt.alloc(), how, images, &names, out, err)
}

fn name_list(alloc: Global, paths: &[String]) -> Result<Vec<&str>, AllocError> {
    paths.iter().map(|path| path.as_str()).collect(alloc)
}
