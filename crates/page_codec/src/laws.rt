ghost use Rattle.std.specs.Prelude.{◌≡◌, ◌<◌, ◌⊎◌, ℕ, List, length, slice_index_or};
ghost use Rattle.blk_base.specs.declared.place.Mapping.{Mapping};
ghost use Rattle.blk_base.specs.declared.place.Mapping.TheVariants.{Unmapped};
ghost use Rattle.page_codec.specs.declared.forms.PageHead.{PageHead};
ghost use Rattle.page_codec.specs.declared.fault.PageFault.{PageFault};
ghost use Rattle.page_codec.specs.PageBytes.{page_bytes};
ghost use Rattle.page_codec.specs.Grammar.{AreHeld, IsPage, IsHead, HasHead, IsSlot, IsSlotFault, IsPageFault, IsTorn, IsFrom};

use blk_base::PAGE_SLOTS;

/// A block is a page exactly where each of its slots says a mapping, and the page has these mappings.
pub fn a_page_is_its_slots()
    ensures slots { (head : PageHead) (block : List ℕ) (mappings : List Mapping) (slot : ℕ) →
        IsPage head block mappings → slot < PAGE_SLOTS
        → IsSlot head block slot (slice_index_or mappings slot Unmapped) }
    ensures page { (head : PageHead) (block : List ℕ) (mappings : List Mapping) →
        length block ≡ 4096 → length mappings ≡ PAGE_SLOTS
        →
        ((slot : ℕ) → slot < PAGE_SLOTS →
        IsSlot head block slot (slice_index_or mappings slot Unmapped)) →
        IsPage head block mappings }
{}

/// A slot says one mapping or has one fault. A block is one page or has one fault, and begins as one page of one image
/// at one block.
pub fn bytes_have_one_reading()
    ensures heads { (h h' : PageHead) (block : List ℕ) → IsHead h → IsHead h' → HasHead h block →
        HasHead h' block
        → (h.geometry.nonce ≡ h'.geometry.nonce) × (h.at ≡ h'.at) × (h.page ≡ h'.page) }
    ensures slots { (head : PageHead) (block : List ℕ) (slot : ℕ) (m m' : Mapping) →
        IsSlot head block slot m → IsSlot head block slot m' → m ≡ m' }
    ensures pages { (head : PageHead) (block : List ℕ) (ms ms' : List Mapping) →
        IsPage head block ms → IsPage head block ms' → ms ≡ ms' }
    ensures slot_faults { (head : PageHead) (block : List ℕ) (slot : ℕ) (m : Mapping)
        (fault : PageFault)
        → IsSlot head block slot m → IsSlotFault head block slot fault → ⊥ }
    ensures page_faults { (head : PageHead) (block : List ℕ) (ms : List Mapping) (fault : PageFault)
        → IsPage head block ms → IsPageFault head block fault → ⊥ }
    ensures one_fault { (head : PageHead) (block : List ℕ) (fault fault' : PageFault)
        → IsPageFault head block fault → IsPageFault head block fault' → fault ≡ fault' }
{}

/// A page that the format can hold is read back as it was written.
pub fn what_is_written_is_read()
    ensures { (head : PageHead) (mappings : List Mapping) →
        AreHeld head.geometry head.page.level mappings →
        IsPage head (page_bytes head mappings) mappings }
{}

/// A stop within the write of a page leaves in each sector the bytes before or the new ones. A slot whose bytes are all
/// from one of the two pages says what it says there, or has the fault that it has there.
pub fn a_torn_page_keeps_whole_slots()
    ensures { (head : PageHead) (old new block page : List ℕ) (slot : ℕ) → HasHead head old →
        HasHead head new → IsTorn old new block
        → (page ≡ old) ⊎ (page ≡ new) → slot < PAGE_SLOTS → IsFrom page block slot
        → ((m : Mapping) → IsSlot head page slot m → IsSlot head block slot m)
        ×
        ((fault : PageFault) → IsSlotFault head page slot fault →
        IsSlotFault head block slot fault) }
{}
