/// A script that shows what building calls do, and how they are refused.
pub(crate) const EXAMPLE: &str = "\
# v4 = v0 * 3 + 7
make_block
append_block_param block0 i32
append_inst block0 iconst 3 -> i32
append_inst block0 imul v0 v1 -> i32
append_inst block0 iconst 7 -> i32
append_inst block0 iadd v2 v3 -> i32

# an instruction whose result was cleared keeps its value, and another may use it
append_inst block0 iadd v0 v0 -> i32
append_inst block0 imul v5 v0 -> i32
clear_results inst4

# v5 is free to become another name, but not for what uses it
change_to_alias v5 v6
change_to_alias v5 v2

# refused: v99 is not there, and the widths differ
append_inst block0 iadd v0 v99 -> i32
append_inst block0 iadd v0 v1 -> i64
";
