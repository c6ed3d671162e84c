//! Room for large blocks in the heap.

ghost use Rattle.std.specs.Prelude.{◌≡◌, [], IfOk, IfSome};

use std::alloc::{AllocError, Allocator};

// Number of bytes from which an input is large.
const LARGE: usize = 1048576;

// Bytes of a block. The GNU C library takes up to 32 MiB from its heap; its notes on a block fit beside this.
const BLOCK: usize = 33546240;

// Number of blocks that are given back: 2 GiB.
const BLOCKS: usize = 64;

/// Returns room for the answer to an input, by the size of the input in bytes, if that is large. It is to be kept until
/// the input is answered. Room changes no answer, and where it is refused there is none.
pub(crate) fn room_for<A: Allocator + Copy>(alloc: A, size: usize) -> Option<Vec<u8, A>>
    ensures { IfSome result (λ block. block.items ≡ []) }
{
    if size < LARGE {
        return None;
    }
    heap_room(alloc).ok()
}

// Makes the heap grow by blocks, gives back all but the last, and returns the last. As long as it lives, the GNU C
// library keeps the others as room, and takes large blocks from there. Else each large block would be new pages, which
// the system clears one by one, and gets back as soon as the block is dropped. No page of the room is touched here.
fn heap_room<A: Allocator + Copy>(alloc: A) -> Result<Vec<u8, A>, AllocError>
    ensures { IfOk result (λ block. block.items ≡ []) }
{
    // (once such a block is given back, the library takes others from its heap)
    drop(block(alloc)?);
    let mut blocks = Vec::with_capacity(alloc, BLOCKS)?;
    for _ in 0..BLOCKS {
        blocks.push(block(alloc)?)?;
    }
    block(alloc)
}

// Returns a block that holds nothing.
fn block<A: Allocator>(alloc: A) -> Result<Vec<u8, A>, AllocError>
    ensures { IfOk result (λ block. block.items ≡ []) }
{
    Vec::with_capacity(alloc, BLOCK)
}
