// The names of what a refusal is about, typed on a page.
#![tactic(auto)]

ghost use Rattle.std.specs.Prelude.{◌≡◌};
ghost use Rattle.text.specs.Text.{ascii};
ghost use Rattle.text.specs.Page.{HasRoom, TypedOn};
ghost use Rattle.name.specs.Name.{name_of};

use element::Element;
use text::Page;

// As A/341 has it.
fn name_of(e: Element) -> &'static [u8]
    ensures { result.now ≡ ascii (name_of e) }
{
    match e {
        Element::Nothing => b"",
        Element::AppIdentifier => b"app_identifier",
        Element::AppVersion => b"app_version",
        Element::MetadataRefreshFlag => b"metadata_refresh_flag",
        Element::NumExtBlocks => b"num_ext_blocks",
        Element::DmAlignmentZeroBit => b"dm_alignment_zero_bit",
        Element::ExtBlockLength => b"ext_block_length",
        Element::ExtBlockLevel => b"ext_block_level",
        Element::MinPq => b"min_PQ",
        Element::MaxPq => b"max_PQ",
        Element::AvgPq => b"avg_PQ",
        Element::TargetMaxPq => b"target_max_PQ",
        Element::TrimSlope => b"trim_slope",
        Element::TrimOffset => b"trim_offset",
        Element::TrimPower => b"trim_power",
        Element::TrimChromaWeight => b"trim_chroma_weight",
        Element::TrimSaturationGain => b"trim_saturation_gain",
        Element::MsWeight => b"ms_weight",
        Element::ActiveAreaLeftOffset => b"active_area_left_offset",
        Element::ActiveAreaRightOffset => b"active_area_right_offset",
        Element::ActiveAreaTopOffset => b"active_area_top_offset",
        Element::ActiveAreaBottomOffset => b"active_area_bottom_offset",
        Element::ExtDmAlignmentZeroBit => b"ext_dm_alignment_zero_bit",
        Element::End => b"end",
        Element::Wrapper => b"wrapper",
    }
}

// Types its name.
pub fn put_name(page: &mut Page, e: Element)
    requires { HasRoom page.old (ascii (name_of e)) }
    ensures { TypedOn page.old (ascii (name_of e)) page.new }
{
    page.put_text(name_of(e));
}
