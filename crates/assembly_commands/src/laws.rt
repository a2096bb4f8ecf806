// What the text of an image says.
ghost use Rattle.assembly_commands.specs.TextLaws.{ComesBack, HasWords};

use elf_loader::Image;

/// The text that `dis` writes of an image is assembled to the image's entry and words again.
pub fn image_text_comes_back(image: &Image)
    requires { HasWords image.now }
    ensures { ComesBack image.now }
{
    let _base = image.code().base();
}
