//! The pages of docs/EXPLAIN.md in their order. Written by tools/explain.

ghost use Rattle.std.specs.Prelude.{◌≡◌, option_map, slice_get};
ghost use Rattle.pascal_pages.specs.Asked.{names_of};
ghost use Rattle.pascal_pages.specs.Pages.{pages};

use crate::{Page, endings, refusals, warnings};

/// How many pages there are.
pub const COUNT: usize = 76;

// The page with a number, counted from 0; none behind the last.
pub(crate) fn numbered(at: usize) -> Option<Page>
    ensures { option_map names_of result ≡ slice_get pages at }
{
    let page = match at {
        0 => refusals::refusal_1_toolong(),
        1 => refusals::refusal_2_toomanylines(),
        2 => refusals::refusal_9_outofmemory(),
        3 => refusals::refusal_10_badbyte(),
        4 => refusals::refusal_11_opencomment(),
        5 => refusals::refusal_12_openstring(),
        6 => refusals::refusal_13_emptystring(),
        7 => refusals::refusal_14_separatormissing(),
        8 => refusals::refusal_15_numbertoolarge(),
        9 => refusals::refusal_16_realnumber(),
        10 => refusals::refusal_20_notaprogram(),
        11 => refusals::refusal_21_toodeep(),
        12 => refusals::refusal_22_notinprofile(),
        13 => refusals::refusal_30_unknown(),
        14 => refusals::refusal_31_twice(),
        15 => refusals::refusal_32_usedbefore(),
        16 => refusals::refusal_33_wrongkind(),
        17 => refusals::refusal_34_wrongtype(),
        18 => refusals::refusal_35_notassignable(),
        19 => refusals::refusal_36_badsubrange(),
        20 => refusals::refusal_37_setbase(),
        21 => refusals::refusal_38_casetwice(),
        22 => refusals::refusal_39_controlvariable(),
        23 => refusals::refusal_40_packedvariable(),
        24 => refusals::refusal_41_notcongruous(),
        25 => refusals::refusal_42_forwardopen(),
        26 => refusals::refusal_43_noresultassigned(),
        27 => refusals::refusal_44_noinputoutput(),
        28 => refusals::refusal_45_limit(),
        29 => refusals::refusal_50_codetoolarge(),
        30 => refusals::refusal_51_badplacement(),
        31 => refusals::refusal_60_magic(),
        32 => refusals::refusal_61_truncated(),
        33 => refusals::refusal_62_trailing(),
        34 => refusals::refusal_63_toolarge(),
        35 => refusals::refusal_64_badtable(),
        36 => refusals::refusal_70_budgettoolarge(),
        37 => refusals::refusal_71_budgetuneven(),
        38 => warnings::warning_81_emptystatement(),
        39 => warnings::warning_82_indentation(),
        40 => warnings::warning_83_neverassigned(),
        41 => warnings::warning_84_loopunchanged(),
        42 => warnings::warning_85_valueparameter(),
        43 => warnings::warning_86_hidden(),
        44 => warnings::warning_87_unreached(),
        45 => warnings::warning_88_directive(),
        46 => warnings::warning_89_outofrange(),
        47 => warnings::warning_90_nestedcomment(),
        48 => endings::error_1_integer_overflow(),
        49 => endings::error_2_division_by_zero(),
        50 => endings::error_3_modulus_below_one(),
        51 => endings::error_4_value_out_of_range(),
        52 => endings::error_5_index_out_of_range(),
        53 => endings::error_6_nil_pointer(),
        54 => endings::error_7_no_case_constant(),
        55 => endings::error_8_set_member_out_of_range(),
        56 => endings::error_9_end_of_input(),
        57 => endings::error_10_not_an_integer(),
        58 => endings::error_11_field_width_below_one(),
        59 => endings::stop_12_out_of_stack(),
        60 => endings::stop_13_out_of_heap(),
        61 => endings::status_0_all_is_well(),
        62 => endings::status_1_refused_or_not_to_be_read_or_written(),
        63 => endings::status_2_an_error_of_the_program(),
        64 => endings::status_3_out_of_stack_or_heap(),
        65 => endings::status_4_step_limit(),
        66 => endings::status_5_machine_fault(),
        67 => endings::fault_cannot_read(),
        68 => endings::fault_cannot_write(),
        69 => endings::fault_input_fault(),
        70 => endings::fault_output_fault(),
        71 => endings::machine_fault_badword(),
        72 => endings::machine_fault_badaddress(),
        73 => endings::machine_fault_baddivisor(),
        74 => endings::machine_fault_badjump(),
        75 => endings::machine_fault_unknowntrap(),
        _ => return None,
    };
    Some(page)
}
