//! Which tables and uniques are a schema, and what is wrong with others.
use crate::tables::{tables_of, uniques_of};
use geo_schema::{Schema, SchemaFault};
use std::alloc::Global;
use std::test::Fail;

/// Tables, and what they are told.
const TABLES: &str = "\
a/b/c => fits
 => fits
a/b/b/a => twice b
a/a//b => bad 2
a/b/c/d/e/f/g/h/i/j/k/l/m/n/o/p/q/r/s/t/u/v/w/x/y/z/A/B/C/D/E/F/G/H/I/J/K/L/M/N/O/P/Q/R/S/T/U/V/W/X/Y/Z/0/1/2/3/4/5/6/7/8/9/aa/bb => fits
a/b/c/d/e/f/g/h/i/j/k/l/m/n/o/p/q/r/s/t/u/v/w/x/y/z/A/B/C/D/E/F/G/H/I/J/K/L/M/N/O/P/Q/R/S/T/U/V/W/X/Y/Z/0/1/2/3/4/5/6/7/8/9/aa/bb/cc => too many
a/b/c/d/e/f/g/h/i/j/k/l/m/n/o/p/q/r/s/t/u/v/w/x/y/z/A/B/C/D/E/F/G/H/I/J/K/L/M/N/O/P/Q/R/S/T/U/V/W/X/Y/Z/0/1/2/3/4/5/6/7/8/9/aa/bb/ => too many
first/|k|0| => bad 1
first/a234567890123456789012345678901z => fits
first/a2345678901234567890123456789012z => bad 1
first/t||0| => bad 1
first/t|a,|0| => bad 1
first/t|a,a234567890123456789012345678901z|0| => fits
first/t|a,a2345678901234567890123456789012z|0| => bad 1
first/t|a,b,a|0| => bad 1
first/t|a|| => bad 1
first/t|a|1| => bad 1
first/t|a,b|11| => bad 1
first/t|a,b,c,d,e|4210| => fits
first/t|a,b,c,d,e|43210| => bad 1
first/t|k,t:1024|0| => fits
first/t|k,t:1025|0| => bad 1
first/t||| => bad 1
first/t|k:truth|0| => fits
first/t|a,b,c,d,e,f,g,h,i,j,k,l,m,n,o,p,q,r,s,t,u,v,w,x,y,z,A,B,C,D,E,F|0| => fits
first/t|a,b,c,d,e,f,g,h,i,j,k,l,m,n,o,p,q,r,s,t,u,v,w,x,y,z,A,B,C,D,E,F,G|0| => bad 1
first/t|k|0|a:0,b:0,c:0,d:0 => fits
first/t|k|0|a:0,b:0,c:0,d:0,e:0 => bad 1
first/t|a,b,c,d,e|0|t:4123 => fits
first/t|a|0|a234567890123456789012345678901z:0 => fits
first/t|a|0|:0 => bad 1
first/t|a|0|a2345678901234567890123456789012z:0 => bad 1
first/t|a|0|i: => bad 1
first/t|a,b,c,d,e|0|i:5 => bad 1
first/t|a,b,c,d,e|0|i:22 => bad 1
first/t|a,b,c,d,e|0|i:01234 => bad 1
first/t|a,b|0|i:0,i:1 => bad 1";

/// Tables, uniques, and what they are told.
const UNIQUES: &str = "\
tab|x,y|0|/other with  => fits
tab|x,y|0|/other with u:0:1 => fits
tab|x,y|0|/other with u:0:10,v:1:0,w:0:1 => fits
tab|x,y|0|/other with u:2:0 => unique 0
tab|x,y|0|/other with u:64:0 => unique 0
 with u:0:0 => unique 0
tab|x,y|0|/other with u:0: => unique 0
tab|x,y|0|/other with u:1:1 => unique 0
tab|x,y|0|/other with u:0:11 => unique 0
tab|a,b,c,d,e|0| with u:0:4321 => fits
tab|a,b,c,d,e|0| with u:0:43210 => unique 0
tab with :0:0 => unique 0
tab with a234567890123456789012345678901z:0:0 => fits
tab with a2345678901234567890123456789012z:0:0 => unique 0
tab/other with u:0:0,tab:1:0 => unique 1
tab/other with u:0:0,other:0:0 => unique 1
tab/other|k|0|i:0,j:0 with u:0:0,j:0:0 => unique 1
tab/other with u:0:0,v:0:0,u:1:0 => unique 2
tab/other with u:0:0,v:9:0,:0:0 => unique 1
tab/other|k|1| with u:9:0 => bad 1
tab/tab with u:9:0 => twice tab
tab with a:0:0,b:0:0,c:0:0,d:0:0,e:0:0,f:0:0,g:0:0,h:0:0,i:0:0,j:0:0,k:0:0,l:0:0,m:0:0,n:0:0,o:0:0,p:0:0,q:0:0,r:0:0,s:0:0,t:0:0,u:0:0,v:0:0,w:0:0,x:0:0,y:0:0,z:0:0,A:0:0,B:0:0,C:0:0,D:0:0,E:0:0,F:0:0,G:0:0,H:0:0,I:0:0,J:0:0,K:0:0,L:0:0,M:0:0,N:0:0,O:0:0,P:0:0,Q:0:0,R:0:0,S:0:0,T:0:0,U:0:0,V:0:0,W:0:0,X:0:0,Y:0:0,Z:0:0,0:0:0,1:0:0,2:0:0,3:0:0,4:0:0,5:0:0,6:0:0,7:0:0,8:0:0,9:0:0,aa:0:0,bb:0:0 => fits
tab with a:0:0,b:0:0,c:0:0,d:0:0,e:0:0,f:0:0,g:0:0,h:0:0,i:0:0,j:0:0,k:0:0,l:0:0,m:0:0,n:0:0,o:0:0,p:0:0,q:0:0,r:0:0,s:0:0,t:0:0,u:0:0,v:0:0,w:0:0,x:0:0,y:0:0,z:0:0,A:0:0,B:0:0,C:0:0,D:0:0,E:0:0,F:0:0,G:0:0,H:0:0,I:0:0,J:0:0,K:0:0,L:0:0,M:0:0,N:0:0,O:0:0,P:0:0,Q:0:0,R:0:0,S:0:0,T:0:0,U:0:0,V:0:0,W:0:0,X:0:0,Y:0:0,Z:0:0,0:0:0,1:0:0,2:0:0,3:0:0,4:0:0,5:0:0,6:0:0,7:0:0,8:0:0,9:0:0,aa:0:0,bb:0:0,cc:0:0 => unique 64
tab with a:0:0,b:0:0,c:0:0,d:0:0,e:0:0,f:0:0,g:0:0,h:0:0,i:0:0,j:0:0,k:0:0,l:0:0,m:0:0,n:0:0,o:0:0,p:0:0,q:0:0,r:0:0,s:0:0,t:0:0,u:0:0,v:0:0,w:0:0,x:0:0,y:0:0,z:0:0,A:0:0,B:0:0,C:0:0,D:0:0,E:0:0,F:0:0,G:0:0,H:0:0,I:0:0,J:0:0,K:0:0,L:0:0,M:0:0,N:0:0,O:0:0,P:0:0,Q:0:0,R:0:0,S:0:0,T:0:0,U:0:0,V:0:0,W:0:0,X:0:0,Y:0:0,Z:0:0,0:0:0,1:0:0,2:0:0,3:0:0,4:0:0,5:0:0,6:0:0,7:0:0,8:0:0,9:0:0,aa:0:0,:0:0,bb:0:0,cc:0:0 => unique 63";

/// What the tables and uniques are told.
fn told(alloc: Global, tables: &str, uniques: &str) -> Result<String, Fail> {
    let tables = tables_of(alloc, tables)?;
    match Schema::with_unique(alloc, tables, uniques_of(alloc, uniques)?) {
        Ok(_) => Ok(String::from_str(alloc, "fits")?),
        Err(SchemaFault::TooManyTables) => Ok(String::from_str(alloc, "too many")?),
        Err(SchemaFault::Twice(name)) => Ok(format!(in alloc; "twice {}", name.text())?),
        Err(SchemaFault::BadTable(place)) => Ok(format!(in alloc; "bad {place}")?),
        Err(SchemaFault::BadUnique(place)) => Ok(format!(in alloc; "unique {place}")?),
        Err(SchemaFault::NoMemory) => Err("no memory".into()),
    }
}

fn is_told(alloc: Global, line: &str) -> Result<bool, Fail> {
    let (text, want) = line.split_once(" => ").ok_or("a line without an answer")?;
    let (tables, uniques) = text.split_once(" with ").unwrap_or((text, ""));
    let told = told(alloc, tables, uniques)?;
    Ok(told.as_str() == want)
}

#[test]
fn tables_with_their_faults(rt: HostRuntime) -> Result<(), Fail> {
    for line in TABLES.lines() {
        assert!(rt; is_told(rt.alloc(), line)?, "{line}");
    }
    Ok(())
}

#[test]
fn uniques_with_their_faults(rt: HostRuntime) -> Result<(), Fail> {
    for line in UNIQUES.lines() {
        assert!(rt; is_told(rt.alloc(), line)?, "{line}");
    }
    Ok(())
}
