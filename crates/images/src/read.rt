ghost use Rattle.images.specs.Reads.{ImageRead};

use super::complete::CompleteImage;
use super::fault::ImageFault;
use super::take::{OpenImage, Taken};
use super::write::BLOCK_LENGTH;
use blocks::fault::BlockFault;
use bodies::body::Body;

// Takes all blocks of an image, which lie back to back.
// Bytes that end before the image does, or go on behind it, are refused as a block of a wrong length.
pub fn read_image<B: Body>(blocks: &[u8], memory: &mut [u8]) -> Result<CompleteImage, ImageFault>
    ensures { ImageRead B.Body.size blocks.now memory.old memory.new result }
{
    let mut image = OpenImage::new();
    let mut left = blocks;
    loop {
        let (block, rest) = left.split_at(left.len().min(BLOCK_LENGTH));
        match image.take::<B>(block, memory) {
            Ok(Taken::Open(next)) => {
                image = next;
                left = rest;
            }
            Ok(Taken::Complete(complete)) => {
                if !rest.is_empty() {
                    return Err(BlockFault::WrongLength.into());
                }
                return Ok(complete);
            }
            Err(refused) => return Err(refused.fault),
        }
    }
}
