//! Folders of pages: two partitions that leave memory, a page that another program changes, and a device that is full.
use crate::commands::{ends, ends_by, split, start};
use fkv_commands::{FeedFiles, run};
use fkv_meters::Silent;
use fkv_streams::{CountedReader, CountedWriter};
use std::alloc::Global;
use std::fs::{self, Files, OpenFile, OpenOptions};
use std::io::{self, Read, Write};
use std::os::unix::fs::symlink;
use std::test::Fail;

/// Forty keys, each in two rows, and their sums: more than two frames of 256 bytes hold of either of two partitions.
fn forty(alloc: Global) -> io::Result<(String, String)> {
    let mut rows = String::new(alloc);
    let mut sums = String::new(alloc);
    for pass in 1..3u64 {
        for key in 10..50u64 {
            write!(rows, "k{key},{}\n", key * pass)?;
            if pass == 1 {
                write!(sums, "k{key},{}\n", key * 3)?;
            }
        }
    }
    Ok((rows, sums))
}

/// Options of runs whose partitions move pages to a folder.
const MOVING: [&str; 10] = [
    "sum --partition-bits 1 --page-bits 8 --frames 2 --dir folders/pages",
    "sum --partition-bits 1 --page-bits 8 --frames 2 --dir folders/pages --merge",
    "sum --partition-bits 2 --page-bits 8 --frames 2 --dir folders/pages",
    "sum --partition-bits 0 --page-bits 9 --frames 2 --dir folders/pages",
    "sum --partition-bits 1 --page-bits 8 --frames 2 --dir folders/pages --spill",
    "sum --partition-bits 2 --page-bits 8 --frames 2 --dir folders/pages --spill --merge folders/rows folders/none",
    "sum --partition-bits 1 --page-bits 8 --frames 2 --dir folders/pages --spill --workers 2 folders/rows folders/none",
    "sum --partition-bits 2 --page-bits 8 --frames 2 --dir folders/pages --spill --workers 3 --merge folders/rows folders/none",
    "sum --partition-bits 1 --page-bits 8 --frames 2 --dir folders/pages --audit",
    "sum --partition-bits 1 --page-bits 8 --frames 2 --dir folders/pages --workers 2 folders/rows folders/none",
];

/// A file of an earlier run, which is longer than any of these runs makes it.
const OLD: [u8; 20_000] = [7; 20_000];

/// After each run the file of the first partition has pages of this run, and nothing of an earlier one.
#[test]
fn partitions_have_files_of_their_own(rt: HostRuntime) -> Result<(), Fail> {
    fs::create_dir_all(&rt, "folders/pages")?;
    let (rows, sums) = forty(rt.alloc())?;
    fs::write(&rt, "folders/rows", rows.as_str())?;
    fs::write(&rt, "folders/none", "")?;
    for options in MOVING {
        fs::write(&rt, "folders/pages/part-00.log", OLD.as_slice())?;
        let line = format!(in rt.alloc(); "fkv_cli {options}")?;
        let run = start(line.as_str(), rows.as_str());
        assert!(rt;
            ends(&rt, rt.alloc(), run, 0, sums.as_str(), ""),
            "{options}"
        );
        let size = fs::metadata(&rt, "folders/pages/part-00.log")?.len();
        assert!(rt; 0 < size && size < 20_000, "{options}: {size}");
    }
    Ok(())
}

/// What happens to the file of partition 0 once the input is at its end.
#[derive(Clone, Copy)]
enum Harm {
    /// Page 0 is written over.
    Zeros,
    /// This many bytes stay.
    Cut(u64),
}

/// Gives a text, and harms a file before it gives the end.
#[derive(Drop)]
struct Harming<'a, H: Files> {
    rt: &'a H,
    text: &'a [u8],
    path: &'a str,
    harm: Harm,
}

impl<H: Files> Read for Harming<'_, H> {
    fn read(&mut self, buf: &mut [u8]) -> io::Result<usize> {
        if self.text.is_empty() {
            let mut how = OpenOptions::new();
            let mut file = how.write(true).open(self.rt, self.path)?;
            match self.harm {
                Harm::Zeros => file.write_all(&[0; 256])?,
                Harm::Cut(size) => file.set_len(size)?,
            }
            return Ok(0);
        }
        self.text.read(buf)
    }
}

const LETTERS: &str =
    "a,1\nb,1\nc,1\nd,1\ne,1\nf,1\ng,1\nh,1\ni,1\nj,1\nk,1\nl,1\nm,1\nn,1\no,1\np,1\nq,1\nr,1\ns,1\nt,1\n";

/// Harms, and what is told. Pages 0 to 3 are in the file, and each is read for the table.
const HARMS: [(Harm, &str); 2] = [
    (
        Harm::Zeros,
        "fkv_cli: damaged page 0\nfkv_cli: the folder 'harmed' was changed while the run went on; is another run using it?\n",
    ),
    (
        Harm::Cut(768),
        "fkv_cli: device fault 3 on page 3\nfkv_cli: the folder 'harmed' was changed while the run went on; is another run using it?\n",
    ),
];

#[test]
fn files_that_change(rt: HostRuntime) -> Result<(), Fail> {
    let line = "fkv_cli sum --partition-bits 0 --page-bits 8 --frames 2 --dir harmed";
    for (harm, told) in HARMS {
        let mut reader = CountedReader::new(Harming {
            rt: &rt,
            text: LETTERS.as_bytes(),
            path: "harmed/part-00.log",
            harm,
        });
        let run = start(line, "");
        assert!(rt;
            ends_by(&rt, rt.alloc(), run, &mut reader, &Silent, 1, "", told),
            "{told}"
        );
    }
    fs::remove_dir_all(&rt, "harmed")?;
    Ok(())
}

/// Takes a text, and cuts a file to nothing before it takes the first of it.
#[derive(Drop)]
struct CuttingWriter<'a, H: Files> {
    rt: &'a H,
    path: &'a str,
    text: Vec<u8>,
}

impl<H: Files> Write for CuttingWriter<'_, H> {
    fn write(&mut self, buf: &[u8]) -> io::Result<usize> {
        if self.text.is_empty() {
            let mut how = OpenOptions::new();
            how.write(true).open(self.rt, self.path)?.set_len(0)?;
        }
        self.text.write(buf)
    }

    fn flush(&mut self) -> io::Result<()> {
        Ok(())
    }
}

/// Ten thousand keys: the rows of their table, which are those of the feed too, are more than 64 KiB.
fn ten_thousand(alloc: Global) -> io::Result<String> {
    let mut rows = String::new(alloc);
    for key in 10_000..20_000u64 {
        write!(rows, "k{key},{key}\n")?;
    }
    Ok(rows)
}

/// The pages of a table that is spilled go once its first rows were written: the run ends with status 1, and these rows stand.
#[test]
fn a_table_that_is_cut(rt: HostRuntime) -> Result<(), Fail> {
    let rows = ten_thousand(rt.alloc())?;
    let line = "fkv_cli sum --spill --partition-bits 0 --page-bits 8 --frames 2 --dir cut";
    let words = split(rt.alloc(), line)?;
    let mut writer = CuttingWriter {
        rt: &rt,
        path: "cut/part-00.log",
        text: Vec::new(rt.alloc()),
    };
    let mut faults = Vec::new(rt.alloc());
    let ended = run(
        &rt,
        rt.alloc(),
        words.as_slice(),
        &mut CountedReader::new(rows.as_bytes()),
        &mut CountedWriter::new(&mut writer),
        &mut CountedWriter::new(&mut faults),
        &Silent,
        &FeedFiles::new(&rt, &Silent),
    );
    let part = writer.text.as_slice();
    assert!(rt; ended.status == 1);
    assert!(rt;
        part.len() > 60_000 && part.len() < rows.len() && rows.as_bytes().starts_with(part)
    );
    assert!(rt;
        faults
            .as_slice()
            .starts_with(b"fkv_cli: device fault 3 on page ")
    );
    fs::remove_dir_all(&rt, "cut")?;
    Ok(())
}

#[test]
fn a_device_that_is_full(rt: HostRuntime) -> Result<(), Fail> {
    fs::create_dir_all(&rt, "full")?;
    symlink(&rt, "/dev/full", "full/part-00.log")?;
    let line = "fkv_cli sum --partition-bits 0 --page-bits 8 --frames 2 --dir full";
    let run = start(line, LETTERS);
    assert!(rt;
        ends(
            &rt,
            rt.alloc(),
            run,
            1,
            "",
            "fkv_cli: device fault 2 on page 0\nfkv_cli: page 0 of the folder 'full': No space left on device (os error 28)\n"
        )
    );
    fs::remove_dir_all(&rt, "full")?;
    Ok(())
}
