ghost use Rattle.std.specs.Prelude.{◌≡◌, ◌+◌, ◌≤◌, [], ◌++◌, length, Ok};
ghost use Rattle.ata_ident.specs.Build.{FitsPage, identity_page, texts_part, numbers_part, capabilities};
ghost use Rattle.ata_ident.specs.Read.{reading_of};

use crate::writer::Writer;
use ata_base::Identity;

/// The page of a drive with this identity (ACS-3, IDENTIFY DEVICE data): its texts, the queue depth, the Serial ATA
/// capabilities, the Ultra DMA modes, the number of sectors and the integrity word; every other word is 0.
///
/// The texts are printable without a space at the end, the sectors are 1 to 2^48 - 1, the depth is at most 32, the
/// generation 1 to 3 and the modes below 128.
pub fn build(i: &Identity) -> [u8; 512]
    requires { FitsPage i.now }
    ensures page { result ≡ identity_page i.now }
    ensures read_back { reading_of result ≡ Ok i.now }
{
    let mut page = Writer::new();
    write_texts(&mut page, i);
    write_numbers(&mut page, i);
    page.finish()
}

fn write_texts(page: &mut Writer, i: &Identity)
    requires { page.old ≡ [] }
    ensures value { page.new ≡ texts_part i.now }
    ensures len { length page.new ≡ 94 }
    ensures short { (length i.now.model ≤ 40) × (length i.now.serial ≤ 20) × (length i.now.firmware ≤ 8) }
{
    page.blank(10);
    page.text(&i.serial);
    page.blank(3);
    page.text(&i.firmware);
    page.text(&i.model);
}

fn write_numbers(page: &mut Writer, i: &Identity)
    requires len { length page.old ≡ 94 }
    requires fits { FitsPage i.now }
    ensures value { page.new ≡ page.old ++ numbers_part i.now }
    ensures len { length page.new ≡ 510 }
{
    page.blank(28);
    page.word(i.depth.saturating_sub(1) as u16);
    page.word(capability_word(i.depth, i.gen_no));
    page.blank(6);
    page.word(0x4400);
    page.blank(4);
    page.word(i.udma as u16);
    page.blank(11);
    page.four_words(i.sectors);
    page.blank(151);
}

fn capability_word(depth: u8, gen_no: u8) -> u16
    requires { gen_no ≤ 3 }
    ensures { result ≡ capabilities depth gen_no }
{
    let queued = if depth == 0 { 0 } else { 0x100 };
    queued + ((1 << (gen_no + 1)) - 2)
}
