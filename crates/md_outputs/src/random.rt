// Random bytes from the system.
use md_words::Request;
use std::random::RandomSource;

/// Sixteen random bytes, where the words that were parsed ask for a command that needs them, and the system gives some.
pub fn bytes_if_needed<E>(rt: &HostRuntime, parsed: &Result<Request<'_>, E>) -> Option<[u8; 16]> {
    match parsed {
        Ok(request) if request.command.needs_random_bytes() => random_bytes(rt),
        Ok(_) | Err(_) => None,
    }
}

fn random_bytes(rt: &HostRuntime) -> Option<[u8; 16]> {
    let mut bytes = [0; 16];
    rt.fill_bytes(&mut bytes).ok()?;
    Some(bytes)
}
