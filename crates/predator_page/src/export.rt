// What a host calls.
use crate::memory_call::call_in_memory;
use crate::message::message_of;
use crate::reply::Reply;
use crate::request::{Fields, RequestFault};
use base::NoMemory;
use std::alloc::Global;

// What came of a request.
fn reply_to(alloc: Global, request: &[u8]) -> Result<Reply, RequestFault> {
    let mut fields = Fields::new(request);
    let words = fields.words(alloc)?;
    let files = fields.files(alloc)?;
    if !fields.is_empty() {
        return Err(RequestFault::Malformed);
    }
    let mut done = match call_in_memory(alloc, &words, files) {
        Ok(done) => done,
        Err(NoMemory) => return Err(RequestFault::NoMemory),
    };
    let message = message_of(alloc, &words, &done.status, &mut done.shelf)?;
    let mut reply = Reply::new(alloc);
    reply.add_number(u64::from(done.status.number()))?;
    reply.add_bytes(done.shelf.printed())?;
    reply.add_bytes(message.as_ref().map_or("", |it| it.as_str()).as_bytes())?;
    reply.add_files(&done.shelf, &words)?;
    Ok(reply)
}

/// Answers a request by a reply, of which as many bytes are put into `room` as fit. The result is
/// how many bytes the reply has, at least 24; 0 where the bytes are no request, and 1 where memory
/// ran out.
#[unsafe(no_mangle)]
pub extern "C" fn predator_page(alloc: Global, request: &[u8], room: &mut [u8]) -> u64 {
    match reply_to(alloc, request) {
        Ok(reply) => reply.give(room),
        Err(RequestFault::Malformed) => 0,
        Err(RequestFault::NoMemory) => 1,
    }
}
