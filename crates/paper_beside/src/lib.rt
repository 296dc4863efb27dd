// The paper's lines on the calls beside the box, stored records and the reader of TLVs, as relations: statements and proofs, no code.
// From the contracts as the check reads them: `paper_beside.read_settings-follows`, `paper_beside.write_settings-follows`,
// `paper_beside.read_line-follows`, `paper_beside.write_line-follows`, and of the reader `paper_beside.reader-tells`.
#![tactic(auto)]
