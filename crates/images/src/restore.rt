ghost use Rattle.images.specs.Restores.{Restored};

use super::complete::CompleteImage;
use super::fault::ImageFault;
use super::read::read_image;
use operators::operator::Operator;

// Takes all blocks of an image, which lie back to back, and sets an operator to its state.
pub fn restore_image<P: Operator>(
    blocks: &[u8],
    memory: &mut [u8],
    operator: &mut P,
) -> Result<CompleteImage, ImageFault>
    ensures { Restored P.Operator.state P.Operator.written P.Operator.longest P.Out.Body.size P.Out.Body.bytes blocks.now memory.old operator.old operator.new result }
{
    let image = read_image::<P::Out>(blocks, memory)?;
    image.install(memory, operator)?;
    Ok(image)
}
